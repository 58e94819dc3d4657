//! The program `test_stress`: one writer that publishes nights without end, beside readers that look whether each page is one
//! version's, or that are timed.
//!
//! Its words are `check`, `busy` or `idle`, and then, each with a default: how many readers (1 to 16), for how many
//! seconds, of how many blocks of 256 rows the table is, how many rows a page has (1 to 256), and how many versions are kept
//! (2 to 4).
#![tactic(auto)]

mod block;
mod plan;
mod reading;
mod times;
mod together;
mod writing;

use crate::plan::{Kind, Plan};
use crate::together::{Fault, Found, run};
use std::process::ExitCode;
use std::rt::Env;
use std::{env, io};

/// The words of the command line after the program's name.
fn words<R: Env + AllocGlobal>(rt: &R) -> io::Result<Vec<String>> {
    let mut words = Vec::new(rt.alloc());
    for word in env::args(rt)?.skip(1) {
        words.push(word)?;
    }
    Ok(words)
}

/// Prints what was found. The status is 1 where a page was torn or not answered.
fn tell(rt: &impl Print, plan: &Plan, found: &Found) -> io::Result<u8> {
    let Found { reads, nights } = found;
    if reads.torn > 0 || reads.unanswered > 0 {
        println!(rt;
            "{} pages torn, {} not answered",
            reads.torn, reads.unanswered
        )?;
        return Ok(1);
    }
    if plan.kind == Kind::Check {
        println!(rt; "each page is one version's")?;
        return Ok(0);
    }
    println!(rt;
        "pages {} nights {nights} reopened {}",
        reads.reads, reads.reopened
    )?;
    for of_thousand in [500, 999, 1000] {
        println!(rt; "below {of_thousand} {}", reads.times.below(of_thousand))?;
    }
    println!(rt; "longest {}", reads.longest)?;
    Ok(0)
}

/// What stands in the way of a run, as a text.
fn text_of(fault: Fault) -> &'static str {
    match fault {
        Fault::Refused => "memory or the clock is refused",
        Fault::Warehouse => "no warehouse",
    }
}

fn main(rt: HostRuntime) -> ExitCode {
    let Ok(words) = words(&rt) else {
        return ExitCode::from(2);
    };
    let Some(plan) = Plan::of(&words) else {
        let _ = println!(rt;
            "check, busy or idle, and then readers, seconds, blocks, rows and versions"
        );
        return ExitCode::from(2);
    };
    match run(&rt, rt.alloc(), &plan) {
        Ok(found) => match tell(&rt, &plan, &found) {
            Ok(status) => ExitCode::from(status),
            Err(_) => ExitCode::from(5),
        },
        Err(fault) => {
            let _ = println!(rt; "{}", text_of(fault));
            ExitCode::from(4)
        }
    }
}
