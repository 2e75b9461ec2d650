// The commands on the controller.
ghost use Rattle.std.specs.Prelude.{◌≤◌, ◌/◌, ◌≡◌, length};
ghost use Rattle.console_text.specs.Text.{page, put};
ghost use Rattle.console_chip.specs.Answers.{said, saying};
ghost use Rattle.console_commands.specs.Doings.{chip_reply};
ghost use Rattle.console_commands.specs.Needs.{with_controller};

use crate::Console;
use crate::holding::Executed;
use am9517::Controller;
use am9517_sheet::Form;
use console_chip::answers::Spoken;
use console_chip::control::{
    fresh_of, full, grant, make_fresh, pins, read, reset, set_full, set_state, state, waits, write,
};
use console_chip::sheets::{convert, load, sheet};
use console_text::forms::ChipCommand;

#[tactic(auto, using(std::proofs::lemmas::Bool::Decides::nat_tests), unfolding(crate::specs::Doings::chip_reply, words::specs::Choice::when))]
fn chip_said(
    c: Controller,
    command: ChipCommand,
    one: &[u8],
    two: &[u8],
    spare: &mut [u8],
    out: &mut [u8],
    at: usize,
) -> Spoken<Controller>
    requires { (70000 ≤ length spare.old) × (length one.now / 2 ≤ length spare.old) }
    ensures { said result out.new ≡ saying (page out.old at) (chip_reply command c one.now two.now) }
{
    match command {
        ChipCommand::State => state(c, out, at),
        ChipCommand::SetState => set_state(c, one, out, at),
        ChipCommand::Full => full(c, out, at),
        ChipCommand::SetFull => set_full(c, one, out, at),
        ChipCommand::Fresh => make_fresh(out, at),
        ChipCommand::FreshOf => fresh_of(c, one, out, at),
        ChipCommand::Write => write(c, one, two, out, at),
        ChipCommand::Read => read(c, one, out, at),
        ChipCommand::Pins => pins(c, one, out, at),
        ChipCommand::Reset => reset(c, out, at),
        ChipCommand::Waits => waits(c, one, out, at),
        ChipCommand::Grant => grant(c, out, at),
        ChipCommand::Sheet => sheet(Form::One, c, one, spare, out, at),
        ChipCommand::Load => load(Form::One, c, one, spare, out, at),
        ChipCommand::Sheet2 => sheet(Form::Two, c, one, spare, out, at),
        ChipCommand::Load2 => load(Form::Two, c, one, spare, out, at),
        ChipCommand::Forward => convert(Form::Two, c, one, two, spare, out, at),
        ChipCommand::Back => convert(Form::One, c, one, two, spare, out, at),
    }
}

pub(crate) fn on_chip(
    console: Console,
    command: ChipCommand,
    one: &[u8],
    two: &[u8],
    spare: &mut [u8],
    out: &mut [u8],
    at: usize,
) -> Executed
    requires { (70000 ≤ length spare.old) × (length one.now / 2 ≤ length spare.old) }
    ensures { (result.console ≡ with_controller console (chip_reply command console.controller one.now two.now).next) × (page out.new result.at ≡ put (page out.old at) (chip_reply command console.controller one.now two.now).text) }
{
    let done = chip_said(console.controller, command, one, two, spare, out, at);
    Executed {
        console: Console {
            controller: done.next,
            ..console
        },
        at: done.at,
    }
}
