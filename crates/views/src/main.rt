//! Plays a view of each make, with four stations and with seven, and prints what a launch crew reads.

#![tactic(auto)]

use broadcast::{AllToAll, Broadcast, Observe, Relayed};
use model::{Grade, Name, Numbers, SecondVote};
use std::io;

mod scripts;
mod telling;

use scripts::Step;
use telling::{Stations, Told};

fn print_completed<B: Observe>(rt: &HostRuntime, cast: &B) -> io::Result<()> {
    let view = cast.view();
    match cast.completed() {
        Some(name) => println!(rt; "  view {view} left, complete for {}", Told(name)),
        None => println!(rt; "  view {view} left, not complete"),
    }
}

fn offer<B: Broadcast>(rt: &HostRuntime, cast: &mut B, name: Name) -> io::Result<()> {
    match cast.offer(name) {
        Ok(()) => println!(rt; "  {} offered: first vote cast", Told(name)),
        Err(refusal) => println!(rt; "  {} offered: {}", Told(name), Told(refusal)),
    }
}

/// Hears, and prints the answer and what came of it.
fn hear<B: Broadcast>(
    rt: &HostRuntime,
    cast: &mut B,
    grade: Grade,
    name: Name,
    mask: u32,
) -> io::Result<()> {
    let number = u32::from(grade);
    print!(rt;
        "  {} by grade {number} from{}: ",
        Told(name),
        Stations(mask)
    )?;
    let waited = cast.second() == SecondVote::Waiting;
    let was_complete = cast.is_complete(name);
    match cast.hear(grade, name, mask) {
        Err(refusal) => rt.print(Told(refusal))?,
        Ok(None) => print!(rt; "heard")?,
        Ok(Some(send)) => print!(rt; "heard, to be sent on for{}", Stations(send))?,
    }
    if waited && cast.second() != SecondVote::Waiting {
        print!(rt; "; second vote given")?;
    }
    if !was_complete && cast.is_complete(name) {
        print!(rt; "; the view is complete")?;
    }
    println!(rt; "")
}

fn take<B: Broadcast>(rt: &HostRuntime, cast: &mut B, step: Step) -> io::Result<()> {
    match step {
        Step::Offer(name) => offer(rt, cast, name),
        Step::Hear(grade, name, mask) => hear(rt, cast, grade, name, mask),
        Step::Shut => {
            cast.shut();
            println!(rt; "  probed: second vote {}", Told(cast.second()))
        }
        Step::Open(view) => {
            print_completed(rt, cast)?;
            cast.open(view);
            let leader = cast.numbers().leader(view);
            let second = Told(cast.second());
            println!(rt; "  view {view}, led by station {leader}: second vote {second}")
        }
    }
}

fn play<B: Broadcast + Drop>(rt: &HostRuntime, mut cast: B, steps: &[Step]) -> io::Result<()> {
    for step in steps {
        take(rt, &mut cast, *step)?;
    }
    Ok(())
}

/// Plays all-to-all and a relayed leader by the voices of single stations, a relayed station by those of quorums.
fn play_all(rt: &HostRuntime, f: u32, alone: &[Step], together: &[Step]) -> io::Result<()> {
    let (Ok(leader), Ok(other)) = (Numbers::new(f, 1), Numbers::new(f, 2)) else {
        return Ok(());
    };
    let stations = leader.stations();
    println!(rt; "{stations} stations, all-to-all")?;
    play(rt, AllToAll::fresh(other), alone)?;
    println!(rt; "{stations} stations, relayed, at the leader")?;
    play(rt, Relayed::fresh(leader), alone)?;
    println!(rt; "{stations} stations, relayed, at another station")?;
    play(rt, Relayed::fresh(other), together)
}

fn main(rt: HostRuntime) -> io::Result<()> {
    play_all(&rt, 1, scripts::FOUR_ALONE, scripts::FOUR_TOGETHER)?;
    play_all(&rt, 2, scripts::SEVEN_ALONE, scripts::SEVEN_TOGETHER)
}
