//! Names the events of a schedule as a machine takes them.

ghost use Rattle.std.specs.Prelude.{◌≡◌};
ghost use Rattle.wh_replies.specs.Events.{event_of};

use wh_core::Event;
use wh_text_lines::ScheduledEvent;

/// Returns the event of a schedule over so many views. A name that is no view's stands for the number that comes after them.
pub fn event_of(views: usize, event: &ScheduledEvent) -> Event
    ensures { result ≡ event_of views event.now }
{
    match event {
        ScheduledEvent::Begin => Event::Begin,
        ScheduledEvent::Take { worker } => Event::Take(*worker),
        ScheduledEvent::Done { worker } => Event::Done(*worker),
        ScheduledEvent::Page => Event::PageIn,
        ScheduledEvent::Commit => Event::Commit,
        ScheduledEvent::GiveUp => Event::GiveUp,
        ScheduledEvent::Open { desk } => Event::Open(*desk),
        ScheduledEvent::Read { desk, view, limit } => {
            Event::Read(*desk, view.unwrap_or(views), *limit)
        }
        ScheduledEvent::Close { desk } => Event::Close(*desk),
    }
}
