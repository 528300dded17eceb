// A site at work: four controllers, one of which equivocates, and three growers who trust different controllers and still agree on their vents.
// The library's calls decide everything; this program carries the messages, and tells what it carries.
#![tactic(auto)]

use party::PLAN;
use site::Site;
use std::io;
use tell::{KINDS, LIE, NO_VOTE, PUSH, RETURNS, Refused, SITE, WHY};

mod failure;
mod letter;
mod party;
mod site;
mod tell;

// The traffic in three parts. Each byte is one delivery, in two hexadecimal digits: the party, 0 to 2 for a controller and 3 to 5 for growers 0 to 2,
// and the letter. Letters 0 to 4 are there from the start (`site`). 5 to 7 are the 1bs of controllers 0, 1 and 2 in round 5; 8 to a their 2as, and b
// another of controller 0, for one grower more; c and d the 1bs of controllers 2 and 1 in round 6.
const ROUND_5: [u8; 24] = [
    0x00, 0x41, 0x10, 0x02, 0x43, 0x32, 0x20, 0x06, 0x17, 0x15, 0x56, 0x25, 0x26, 0x07, 0x30, 0x32,
    0x50, 0x56, 0x55, 0x59, 0x52, 0x58, 0x57, 0x59,
];

const RETURNING: [u8; 3] = [0x05, 0x08, 0x0b];

const ROUND_6: [u8; 9] = [0x23, 0x21, 0x11, 0x23, 0x24, 0x16, 0x1a, 0x13, 0x1c];

const REST: [u8; 21] = [
    0x44, 0x49, 0x40, 0x47, 0x45, 0x46, 0x49, 0x4a, 0x4b, 0x42, 0x48, 0x4b, 0x36, 0x35, 0x37, 0x38,
    0x3a, 0x39, 0x32, 0x51, 0x53,
];

fn main(rt: HostRuntime) -> io::Result<()> {
    tell_plan(&rt)?;
    let mut site = Site::new()?;
    agree(&rt, &mut site)?;
    outbid(&rt, &mut site)?;
    rt.println(WHY)
}

// Who is there, whether the trust plan is accepted, and how to read the lines that follow.
fn tell_plan(rt: &impl Print) -> io::Result<()> {
    rt.println(SITE)?;
    match graphfile::check(&PLAN) {
        Ok(()) => println!(rt; "The trust plan is accepted.")?,
        Err(refusal) => println!(rt; "The trust plan is {}", Refused(refusal))?,
    }
    rt.println(KINDS)
}

// Round 5 offers 70 percent, and decides for one grower.
fn agree(rt: &impl Print, site: &mut Site) -> io::Result<()> {
    rt.println(LIE)?;
    site.play(rt, &ROUND_5)?;
    rt.println(RETURNS)?;
    site.play(rt, &RETURNING)?;
    site.tell_pages(rt)
}

// Round 6 offers 40 percent, too late: what is left of round 5 decides for the others.
fn outbid(rt: &impl Print, site: &mut Site) -> io::Result<()> {
    rt.println(PUSH)?;
    site.play(rt, &ROUND_6)?;
    rt.println(NO_VOTE)?;
    site.play(rt, &REST)?;
    site.tell_pages(rt)
}
