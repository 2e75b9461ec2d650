// One Am9517A: its state, and the operations on it. Each takes the state by value and hands the next one back.
#![tactic(auto)]

ghost use Rattle.std.specs.Prelude.{◌≡◌};
ghost use Rattle.am9517.specs.Editions.{number_of};
ghost use Rattle.am9517.specs.State.{fresh};
ghost use Rattle.am9517.specs.Refusals.{refusal, write_grounds, read_grounds, pins_grounds, reset_grounds, waits_grounds, grant_grounds};
ghost use Rattle.am9517.specs.Answers.{refusal_number, write_of, read_of, pins_of, reset_of, waits_of, grant_of};

use crate::editions::edition_number;
use crate::state::answered;
use words::bits::{is_set, with_bit};
use words::bytes::byte_of;
use words::choice::when;

pub mod editions;
pub mod modes;
mod ranges;
mod refusals;
mod registers;
mod serving;
mod state;

pub use refusals::Refusal;
pub use serving::{entitled_of, picked_from};

#[repr(C)]
#[derive(Clone, Copy)]
pub struct Channel {
    pub base_address: u16,
    pub address: u16,
    pub base_count: u16,
    pub count: u16,
    pub mode: u8,
}

// Every field is a byte, so that a state that breaks a range can be given, and is refused by 1. First come eight fields that
// ranges.rt asks as one number (the last four are what the end of a service clears), then four that it asks as another; of the orders
// tried this one is the cheapest for the loops of rounds.
#[repr(C)]
#[derive(Clone, Copy)]
pub struct Controller {
    pub channels: [Channel; 4],
    pub tc: u8,
    pub request: u8,
    pub mask: u8,
    pub pins: u8,
    pub in_service: u8,
    pub serving: u8,
    pub latch_full: u8,
    pub latch: u8,
    pub lowest: u8,
    pub flip_flop: u8,
    pub edition: u8,
    pub temporary: u8,
    pub command: u8,
    pub waits: u8,
}

// Which maker's data sheet a controller follows; its number is the state's field `edition`.
#[derive(Clone, Copy)]
pub enum Edition {
    Am9517A,
    Intel8237A,
}

// What an operation says: done, with the byte read or the channel granted where it has one; or its refusal.
pub type Answer = Result<Option<u8>, Refusal>;

// The next state, which is the old one where the answer is a refusal.
#[derive(Clone, Copy)]
pub struct Outcome {
    pub controller: Controller,
    pub answer: Answer,
}

impl Controller {
    pub fn fresh(edition: Edition) -> Controller
        ensures { result ≡ fresh (number_of edition) }
    {
        let blank = Channel {
            base_address: 0,
            address: 0,
            base_count: 0,
            count: 0,
            mode: 0,
        };
        Controller {
            channels: [blank, blank, blank, blank],
            command: 0,
            tc: 0,
            request: 0,
            mask: 15,
            temporary: 0,
            flip_flop: 0,
            pins: 0,
            lowest: 3,
            in_service: 0,
            serving: 0,
            latch_full: 0,
            latch: 0,
            edition: edition_number(edition),
            waits: 0,
        }
    }

    // A byte is written to a register.
    pub fn write(self, reg: u32, byte: u8) -> Outcome
        ensures { (result ≡ write_of self reg byte) × (refusal_number result.answer ≡ refusal (write_grounds self reg byte)) }
    {
        // One copy, changed in place by a channel told by a variable, is copied whole; the commoner writes have a shorter way out of their own.
        let mut next = self;
        let refusal = next.write_refusal(reg, byte);
        let n = (byte % 4) as usize;
        let port = (reg / 2 % 4) as usize;
        let answer = answered(refusal, None);
        if refusal.is_none() {
            match reg {
                9 => next.request = with_bit(next.request, n, is_set(byte, 2)),
                0xA => next.mask = with_bit(next.mask, n, is_set(byte, 2)),
                0xD => next = next.cleared(),
                0xE => next.mask = 0,
                0xF => next.mask = byte % 16,
                _ => {
                    match reg {
                        8 => next.command = byte,
                        0xB => next.channels[n] = next.channels[n].with_mode(byte - byte % 4),
                        0xC => next.flip_flop = 0,
                        _ => {
                            let high = next.flip_flop == 1;
                            let c = next.channels[port];
                            if reg % 2 == 0 {
                                next.channels[port] = c.with_address_byte(high, byte);
                            } else {
                                next.channels[port] = c.with_count_byte(high, byte);
                            }
                            next.flip_flop = when(high, 0, 1);
                        }
                    }
                    return Outcome {
                        controller: next,
                        answer,
                    };
                }
            }
        }
        // A block of its own: next goes out as one copy, not field by field.
        {
            Outcome {
                controller: next,
                answer,
            }
        }
    }

    // A register is read.
    pub fn read(self, reg: u32) -> Outcome
        ensures { (result ≡ read_of self reg) × (refusal_number result.answer ≡ refusal (read_grounds self reg)) }
    {
        let mut next = self;
        let mut value = next.temporary;
        let refusal = next.read_refusal(reg);
        let port = (reg / 2 % 4) as usize;
        if refusal.is_none() {
            match reg {
                8 => {
                    // Asked of the old state, after the store: so every read is 8 instructions shorter than with the call first.
                    let was = next;
                    next.tc = 0;
                    value = was.status();
                }
                0xD => {}
                _ => {
                    let high = next.flip_flop == 1;
                    let c = next.channels[port];
                    value = byte_of(when(reg % 2 == 0, c.address, c.count), high);
                    next.flip_flop = when(high, 0, 1);
                }
            }
        }
        // A block of its own, as above.
        {
            let answer = answered(refusal, Some(value));
            Outcome {
                controller: next,
                answer,
            }
        }
    }

    // The four DREQ pins take these levels.
    pub fn pins(self, levels: u32) -> Outcome
        ensures { (result ≡ pins_of self levels) × (refusal_number result.answer ≡ refusal (pins_grounds self levels)) }
    {
        // One copy and one way out, refused or not, which is shorter than two; so in reset and grant.
        let mut next = self;
        let refusal = next.pins_refusal(levels);
        if refusal.is_none() {
            next.pins = (levels % 256) as u8;
        }
        let answer = answered(refusal, None);
        Outcome {
            controller: next,
            answer,
        }
    }

    pub fn reset(self) -> Outcome
        ensures { (result ≡ reset_of self) × (refusal_number result.answer ≡ refusal (reset_grounds self)) }
    {
        let mut next = self;
        let refusal = next.reset_refusal();
        if refusal.is_none() {
            next = next.cleared();
        }
        let answer = answered(refusal, None);
        Outcome {
            controller: next,
            answer,
        }
    }

    // The memory cards hold each transfer for so many states more.
    pub fn waits(self, states: u8) -> Outcome
        ensures { (result ≡ waits_of self states) × (refusal_number result.answer ≡ refusal (waits_grounds self)) }
    {
        let mut next = self;
        let refusal = next.waits_refusal();
        if refusal.is_none() {
            next.waits = states;
        }
        let answer = answered(refusal, None);
        Outcome {
            controller: next,
            answer,
        }
    }

    // The first entitled channel's service begins.
    pub fn grant(self) -> Outcome
        ensures { (result ≡ grant_of self) × (refusal_number result.answer ≡ refusal (grant_grounds self)) }
    {
        let mut next = self;
        let n = next.picked();
        let refusal = next.grant_refusal(n);
        if refusal.is_none() {
            next = next.granted(n);
        }
        let answer = answered(refusal, Some(n));
        Outcome {
            controller: next,
            answer,
        }
    }
}
