#![tactic(auto)]

use std::io;

// The clipping program, one of three with this text: a program crate has one input (docs/DECISIONS.md, 20).
fn main(rt: HostRuntime) -> io::Result<()> {
    mv_clip_text::run(&mut rt.reader(), &mut io::writer(&rt))
}
