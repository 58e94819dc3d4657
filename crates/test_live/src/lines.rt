// The commands of lines: texts, each with the commands that it says, worked out by hand.

use std::alloc::{AllocError, Global};
use std::test::Fail;
use wh_live::{Command, Lines};
use wh_text::Names;
use wh_text_catalogue::read_shape;
use wh_text_lines::ScheduledEvent;

/// Lines over the views `a` and `v`, and what they say: a letter for each command, with its numbers. `n` is a night, with its parts.
static TEXTS: [(&str, &str); 12] = [
    ("", ""),
    (" \t\n\n", ""),
    ("commit\ngiveup\nquit", "c g q "),
    (" open  3\nclose 3\n", "o3 x3 "),
    ("read 0 v 10\nread 1 w 2", "r0v1l10 r1?l2 "),
    (
        "begin\ntake 0\ndone 0\npage\nopen\nopen x\nread 0 v\n@end\ncommit now",
        "? ? ? ? ? ? ? ? ? ",
    ),
    (
        "night\n@changes a\n#,x\n1,7\n@end\ncommit",
        "n(@changes a/#,x/1,7/) c ",
    ),
    (
        "night\nnight\ncommit\n\n @end\n@end \n@@end\n@end\nquit",
        "n(night/commit// @end/@end /@@end/) q ",
    ),
    ("open 0\nnight\n@changes a\ncommit\n", "o0 "),
    (
        "page 0 v 10\n page\t1 w 2 \ntables\ntables now\nchanges\nchanges v\npage 0 v\npage 0 v 10 1\npage 0 v 10 before 1\npage x v 10 after 1",
        "p0v10 p1?2 t ? d ? ? ? ? ? ",
    ),
    (
        "page 0 v 10 after 1,\"a, b\" \npage 0  v\t10 after\t 1\npage 1 w 2 after one two",
        "p0v10(1,\"a, b\" ) p0v10( 1) p1?2(one two) ",
    ),
    (
        "page 0 v 10 after\npage 0 v 10 after \npage 0 a 1 after after 2",
        "p0v10() p0v10() p0a1(after 2) ",
    ),
];

/// The parts of a night, with `/` where a line ends.
fn parts_text(alloc: Global, parts: &[u8]) -> Result<String, AllocError> {
    let mut text = String::new(alloc);
    for byte in parts {
        let shown = if *byte == b'\n' {
            '/'
        } else {
            char::from(*byte)
        };
        text.push(shown)?;
    }
    Ok(text)
}

/// The letter of an event, with its numbers.
fn event_text(alloc: Global, event: &ScheduledEvent) -> Result<String, AllocError> {
    match event {
        ScheduledEvent::Commit => String::from_str(alloc, "c "),
        ScheduledEvent::GiveUp => String::from_str(alloc, "g "),
        ScheduledEvent::Open { desk } => format!(in alloc; "o{desk} "),
        ScheduledEvent::Close { desk } => format!(in alloc; "x{desk} "),
        ScheduledEvent::Read {
            desk,
            view: Some(view),
            limit,
        } => format!(in alloc; "r{desk}v{view}l{limit} "),
        ScheduledEvent::Read {
            desk,
            view: None,
            limit,
        } => format!(in alloc; "r{desk}?l{limit} "),
        _ => String::from_str(alloc, "no command "),
    }
}

/// A page that is asked for: the desk, the view's letter, and the limit.
fn page_text(
    alloc: Global,
    desk: usize,
    view: Option<usize>,
    limit: usize,
) -> Result<String, AllocError> {
    let view = match view {
        Some(0) => 'a',
        Some(_) => 'v',
        None => '?',
    };
    format!(in alloc; "p{desk}{view}{limit}")
}

/// A command in short.
fn command_text(alloc: Global, command: &Command) -> Result<String, AllocError> {
    match command {
        Command::Night(parts) => {
            let parts = parts_text(alloc, parts)?;
            format!(in alloc; "n({}) ", parts.as_str())
        }
        Command::Event(event) => event_text(alloc, event),
        Command::Page {
            desk,
            view,
            limit,
            after,
        } => {
            let mut text = page_text(alloc, *desk, *view, *limit)?;
            if let Some(cells) = after {
                let cells = parts_text(alloc, cells)?;
                text.push_str(format!(in alloc; "({})", cells.as_str())?.as_str())?;
            }
            text.push(' ')?;
            Ok(text)
        }
        Command::Tables => String::from_str(alloc, "t "),
        Command::Changes => String::from_str(alloc, "d "),
        Command::Quit => String::from_str(alloc, "q "),
        Command::Unknown => String::from_str(alloc, "? "),
    }
}

/// The commands that these lines say, in short.
fn commands_text(alloc: Global, names: &Names, text: &str) -> Result<String, AllocError> {
    let mut lines = Lines::new();
    let mut all = String::new(alloc);
    for line in text.as_bytes().split(|byte| *byte == b'\n') {
        if let Some(command) = lines.take(alloc, names, line)? {
            all.push_str(command_text(alloc, &command)?.as_str())?;
        }
    }
    Ok(all)
}

#[test]
fn lines_are_read_as_commands(rt: HostRuntime) -> Result<(), Fail> {
    let alloc = rt.alloc();
    let views = b"view = [{name = \"a\"}, {name = \"v\", over = [\"a\"]}]";
    let shape = read_shape(alloc, views).ok();
    let names = Names::of(alloc, &shape.expect(&rt, "a shape"))?;
    for (text, told) in &TEXTS {
        let said = commands_text(alloc, &names, text)?;
        assert_eq!(&rt; said.as_str(), *told);
    }
    Ok(())
}
