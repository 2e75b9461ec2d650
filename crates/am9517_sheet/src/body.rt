// The bytes of a body, to and from a state.
ghost use Rattle.std.specs.Prelude.{◌≡◌, ◌+◌, ◌≤◌, length, map};
ghost use Rattle.am9517.specs.Fields.{field, Edition, Waits};
ghost use Rattle.am9517_sheet.specs.declared.forms.Form.TheVariants.{Two};
ghost use Rattle.am9517_sheet.specs.Bytes.{placed};
ghost use Rattle.am9517_sheet.specs.Form.{front, behind, channels_at, channel_place, body_size};
ghost use Rattle.am9517_sheet.specs.Body.{channel_bytes, channels_bytes, channel_at, body_of, exceeds, field_in, state_of};

use crate::bytes::{store, word};
use crate::forms::{BODY, Form};
use am9517::{Channel, Controller};
use words::bytes::{high_byte, low_byte};

// By hand: to_le_bytes gives pairs, and four pairs and a byte become nine bytes by no shorter text.
fn channel_bytes(c: Channel) -> [u8; 9]
    ensures { result ≡ channel_bytes c }
{
    [
        low_byte(c.base_address),
        high_byte(c.base_address),
        low_byte(c.address),
        high_byte(c.address),
        low_byte(c.base_count),
        high_byte(c.base_count),
        low_byte(c.count),
        high_byte(c.count),
        c.mode,
    ]
}

fn field_bytes(c: Controller) -> [u8; 12]
    ensures { result ≡ map (field c) behind }
{
    [
        c.command,
        c.tc,
        c.request,
        c.mask,
        c.temporary,
        c.flip_flop,
        c.pins,
        c.lowest,
        c.in_service,
        c.serving,
        c.latch_full,
        c.latch,
    ]
}

// A channel, and all four, stored from place `at` on; the place behind them.
fn store_channel(c: Channel, out: &mut [u8], at: usize) -> usize
    requires { at + channel_place 1 ≤ length out.old }
    ensures { (out.new ≡ placed out.old at (channel_bytes c)) × (result ≡ at + channel_place 1) }
{
    let bytes = channel_bytes(c);
    store(out, at, &bytes)
}

fn store_channels(c: Controller, out: &mut [u8], at: usize) -> usize
    requires { at + channel_place 4 ≤ length out.old }
    ensures { (out.new ≡ placed out.old at (channels_bytes c)) × (result ≡ at + channel_place 4) }
{
    let at = store_channel(c.channels[0], out, at);
    let at = store_channel(c.channels[1], out, at);
    let at = store_channel(c.channels[2], out, at);
    store_channel(c.channels[3], out, at)
}

// The fields before the channels, stored from place `start` on; the place behind them.
fn store_front(form: Form, c: Controller, out: &mut [u8], start: usize) -> usize
    requires { start + channels_at form ≤ length out.old }
    ensures { (out.new ≡ placed out.old start (map (field c) (front form))) × (result ≡ start + channels_at form) }
{
    match form {
        Form::One => start,
        Form::Two => store(out, start, &[c.edition, c.waits]),
    }
}

// The body is stored from place `start` on.
pub(crate) fn store_body(form: Form, c: Controller, out: &mut [u8], start: usize)
    requires { start + body_size form ≤ length out.old }
    ensures { out.new ≡ placed out.old start (body_of form c) }
{
    let fields = field_bytes(c);
    let at = store_front(form, c, out, start);
    let at = store_channels(c, out, at);
    store(out, at, &fields);
}

// The body of form 2: every field of the state.
pub fn body_of(c: Controller) -> [u8; BODY]
    ensures { result ≡ body_of Two c }
{
    let mut body = [0; BODY];
    store_body(Form::Two, c, &mut body, 0);
    body
}

// Whether the state has something in a field that has no place in the form.
pub(crate) fn exceeds(form: Form, c: Controller) -> bool
    ensures { result ≡ exceeds form c }
{
    match form {
        Form::One => (c.waits != 0) | (c.edition != 0),
        Form::Two => false,
    }
}

fn channel_at(b: &[u8], k: usize) -> Channel
    requires { k + channel_place 1 ≤ length b.now }
    ensures { result ≡ channel_at b.now k }
{
    Channel {
        base_address: word(b, k),
        address: word(b, k + 2),
        base_count: word(b, k + 4),
        count: word(b, k + 6),
        mode: b[k + 8],
    }
}

// The edition and the wait states that a body tells: 0 where they have no place.
fn front_in(form: Form, b: &[u8]) -> (u8, u8)
    requires { body_size form ≤ length b.now }
    ensures { result ≡ (field_in (front form) 0 b.now Edition 0, field_in (front form) 0 b.now Waits 0) }
{
    match form {
        Form::One => (0, 0),
        Form::Two => (b[0], b[1]),
    }
}

// The state that the body at the front of these bytes tells.
pub(crate) fn state_in(form: Form, b: &[u8]) -> Controller
    requires { body_size form ≤ length b.now }
    ensures { result ≡ state_of form b.now }
{
    let (edition, waits) = front_in(form, b);
    let at = form.channels_at();
    let core = &b[at..];
    let first = channel_at(core, 0);
    let second = channel_at(core, 9);
    let third = channel_at(core, 18);
    let fourth = channel_at(core, 27);
    Controller {
        channels: [first, second, third, fourth],
        command: core[36],
        tc: core[37],
        request: core[38],
        mask: core[39],
        temporary: core[40],
        flip_flop: core[41],
        pins: core[42],
        lowest: core[43],
        in_service: core[44],
        serving: core[45],
        latch_full: core[46],
        latch: core[47],
        edition,
        waits,
    }
}

// The state that it tells. No range is asked: a state out of its ranges is told too.
pub fn state_of(body: [u8; BODY]) -> Controller
    ensures { result ≡ state_of Two body }
{
    state_in(Form::Two, &body)
}
