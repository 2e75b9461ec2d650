// The state as a table, a row a channel, and what the console holds beside it.
ghost use Rattle.std.specs.Prelude.{◌≡◌, ◌+◌};

use crate::names::{Command, Edition, Mode, Waits, Word};
use crate::page::put;
use am9517::modes::{address_hold, memory_to_memory_bit};
use am9517::{Channel, Controller};
use std::fmt;
use std::fmt::{Display, Formatter, Write};
use words::bits::is_set;

pub const HEADING: &str = "        address    count
channel base now   base now   line   mask request TC  entitled mode
";

// A controller, whose channels are told from `base` on.
#[derive(Clone, Copy)]
pub struct Numbered<'a> {
    pub controller: &'a Controller,
    pub base: u8,
}

impl<'a> Numbered<'a> {
    // One that stands alone, or a board's first.
    pub fn first(controller: &'a Controller) -> Numbered<'a>
        ensures same { result.controller.now ≡ controller.now }
        ensures base { result.base ≡ 0 }
    {
        Numbered {
            controller,
            base: 0,
        }
    }

    // A board's second, whose channels are 4 to 7.
    pub fn second(controller: &'a Controller) -> Numbered<'a>
        ensures same { result.controller.now ≡ controller.now }
        ensures base { result.base ≡ 4 }
    {
        Numbered {
            controller,
            base: 4,
        }
    }

    // How its channel n is told.
    pub fn channel(&self, n: u8) -> u16
        ensures { result ≡ self.now.base + n }
    {
        u16::from(self.base) + u16::from(n)
    }
}

// What is one bit of a channel: a word where it is so, else -; with the blanks of its column, which are dear to count.
fn flag(is_so: bool, word: &'static str, none: &'static str) -> &'static str {
    if is_so { word } else { none }
}

// Its channels, a row each.
#[derive(Clone, Copy)]
pub struct ChannelRows<'a>(pub Numbered<'a>);

impl Display for ChannelRows<'_> {
    fn fmt<W: Write>(&self, f: &mut Formatter<W>) -> fmt::Result {
        let c = self.0.controller;
        let entitled = c.entitled_set();
        for (n, channel) in (0u8..4).zip(c.channels.iter()) {
            let place = usize::from(n);
            let Channel {
                base_address,
                address,
                base_count,
                count,
                mode,
            } = *channel;
            writeln!(
                f,
                "{}       {} {}  {} {}  {}{}{}{}{}{}",
                self.0.channel(n),
                Word(base_address),
                Word(address),
                Word(base_count),
                Word(count),
                flag(c.active(place), "active ", "-      "),
                flag(is_set(c.mask, place), "set  ", "-    "),
                flag(is_set(c.request, place), "set     ", "-       "),
                flag(is_set(c.tc, place), "set ", "-   "),
                flag(is_set(entitled, place), "yes      ", "-        "),
                Mode(mode),
            )?;
        }
        Ok(())
    }
}

// What it has but once.
#[derive(Clone, Copy)]
pub struct OtherRows<'a>(pub Numbered<'a>);

impl Display for OtherRows<'_> {
    fn fmt<W: Write>(&self, f: &mut Formatter<W>) -> fmt::Result {
        let c = self.0.controller;
        writeln!(f, "edition  {}", Edition(c.edition))?;
        writeln!(f, "waits    {}", Waits(c.waits))?;
        writeln!(f, "command  {}", Command(c.command))?;
        let copy = if memory_to_memory_bit(c.command) {
            "on"
        } else {
            "off"
        };
        let hold = if address_hold(c.command) { "on" } else { "off" };
        let first = self.0.channel(0);
        writeln!(
            f,
            "         memory-to-memory {copy}, channel {first} address hold {hold}"
        )?;
        let lowest = self.0.channel(c.lowest);
        let flip_flop = c.flip_flop;
        let temporary = c.temporary;
        writeln!(
            f,
            "lowest   channel {lowest}    flip-flop {flip_flop}    temporary {temporary:02x}"
        )?;
        writeln!(f, "service  {}", Service(self.0))
    }
}

#[derive(Clone, Copy)]
struct Service<'a>(Numbered<'a>);

impl Display for Service<'_> {
    fn fmt<W: Write>(&self, f: &mut Formatter<W>) -> fmt::Result {
        let c = self.0.controller;
        if c.in_service == 0 {
            return f.write_str("none");
        }
        let serving = self.0.channel(c.serving);
        let latch = c.latch;
        if c.latch_full == 0 {
            write!(f, "channel {serving}, latch empty")
        } else {
            write!(f, "channel {serving}, latch {latch:02x}")
        }
    }
}

// Whether the state is valid.
#[derive(Clone, Copy)]
pub struct Ranges(pub bool);

impl Display for Ranges {
    fn fmt<W: Write>(&self, f: &mut Formatter<W>) -> fmt::Result {
        f.write_str(if self.0 {
            "ranges   kept"
        } else {
            "ranges   broken: operations are refused by 1"
        })
    }
}

pub fn show(c: Controller, out: &mut [u8], at: usize) -> usize {
    let shown = Numbered::first(&c);
    let channels = ChannelRows(shown);
    let others = OtherRows(shown);
    let ranges = Ranges(c.valid());
    put(
        out,
        at,
        format_args!("{HEADING}{channels}{others}{ranges}\n"),
    )
}

// What the console holds beside the controller.
pub fn show_arrays(lent: usize, start: usize, end: usize, out: &mut [u8], at: usize) -> usize {
    let next = put(
        out,
        at,
        format_args!("memory   {lent} bytes lent    queue "),
    );
    let Some(queued) = end.checked_sub(start) else {
        return next;
    };
    put(out, next, format_args!("{queued} bytes    room "))
}

pub fn show_room(written: usize, size: usize, out: &mut [u8], at: usize) -> usize {
    put(out, at, format_args!("{size} bytes, {written} written"))
}
