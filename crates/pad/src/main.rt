// Plays a script on a preset pad: one command a line, answered on standard output.
#![tactic(auto)]

mod bench;
mod command;
mod complaint;
mod kind;
mod player;
mod script;
mod shown;
mod tables;
mod walks;

use player::play;
use std::io;
use std::io::Read;

fn main(rt: HostRuntime) -> io::Result<()> {
    let mut text = Vec::new(rt.alloc());
    rt.stdin().read_to_end(&mut text)?;
    play(&rt, text.as_slice())
}
