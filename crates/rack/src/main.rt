// Reads a script from standard input, or from the file that the argument names, and tells the console's answers.
#![tactic(auto)]

ghost use Rattle.std.specs.Prelude.{◌≤◌};

mod options;

use console_files::{Page, open_read, report};
use console_judge::{UNHEARD, judge_files};
use console_turns::{Expected, Outcome, Script, Typing, Way, complain, run};
use options::{
    Argument, Asked, Named, Options, argument, argument_count, complain_of, judge_at, put_argument,
    read_options, say_help, say_version,
};
use std::fs::File;
use std::io::{IsTerminal, Print};
use std::process::ExitCode;

fn is_terminal(rt: HostRuntime) -> bool {
    rt.stdin().is_terminal() && rt.stdout().is_terminal()
}

// A script that is not typed, or by a person who is not asked for each line.
fn way_of(options: Options, is_typed: bool) -> Way {
    Way {
        typing: if is_typed {
            Typing::Unasked
        } else {
            Typing::Not
        },
        is_explaining: options.is_explaining,
        is_echoing: options.is_echoing,
    }
}

// A person is asked for each line.
fn converse(rt: HostRuntime) -> Outcome {
    let _ = rt.write_all(
        b"Am9517A rack console: 'help' lists the commands, quit or end of input (Ctrl-D) leaves.\n",
    );
    let way = Way {
        typing: Typing::Asked,
        is_explaining: true,
        is_echoing: false,
    };
    run(rt, way, Script::Input(rt.stdin()), b"standard input", None)
}

// The file, unless it can't be opened, which is said.
fn opened(rt: HostRuntime, name: &[u8]) -> Result<File, Outcome> {
    open_read(rt, name).map_err(|error| {
        complain(rt, name, error);
        Outcome::Failed
    })
}

fn run_script<'a>(
    rt: HostRuntime,
    options: Options,
    answers: Option<Expected<'a>>,
) -> Result<Outcome, Outcome> {
    let Some(Named::File(i)) = options.script else {
        let way = way_of(options, rt.stdin().is_terminal());
        let script = Script::Input(rt.stdin());
        return Ok(run(rt, way, script, b"standard input", answers));
    };
    let name = argument(rt, i);
    let file = opened(rt, name.as_slice())?;
    let way = way_of(options, file.is_terminal());
    Ok(run(rt, way, Script::File(file), name.as_slice(), answers))
}

fn run_as_asked(rt: HostRuntime, options: Options) -> Result<Outcome, Outcome> {
    if let Some(i) = options.answers {
        let name = argument(rt, i);
        let file = opened(rt, name.as_slice())?;
        let answers = Expected::new(rt, file, name.as_slice());
        return run_script(rt, options, Some(answers));
    }
    if !matches!(options.script, Some(Named::File(_))) && is_terminal(rt) {
        return Ok(converse(rt));
    }
    run_script(rt, options, None)
}

fn status_behind(outcome: Outcome) -> u8 {
    match outcome {
        Outcome::Well => 0,
        Outcome::Failed => 1,
        Outcome::Unheard => UNHEARD,
    }
}

// The status: 0 where all went well, 1 where something failed, 2 where the arguments are wrong, 141 where the reader of the output has gone.
fn status_of(rt: HostRuntime, options: Options) -> u8 {
    match options.asked {
        Ok(Asked::Run) => match run_as_asked(rt, options) {
            Ok(outcome) | Err(outcome) => status_behind(outcome),
        },
        Ok(Asked::Help) => say_help(rt),
        Ok(Asked::Version) => say_version(rt),
        Err(wrong) => {
            wrong.say(rt);
            2
        }
    }
}

// The log that is named behind --judge, at this place among the arguments. Its arrays would stand on a session's stack, too.
#[inline(never)]
fn judge_named(rt: HostRuntime, at: usize) -> u8
    requires { at ≤ 2 }
{
    if argument_count(rt) != at + 4 {
        complain_of(
            rt,
            b"behind --judge stand the files of a sheet, a memory and a log",
        );
        return 2;
    }
    let mut sheet: Argument = Page::new();
    let mut image: Argument = Page::new();
    let mut log: Argument = Page::new();
    put_argument(rt, at + 1, &mut sheet);
    put_argument(rt, at + 2, &mut image);
    put_argument(rt, at + 3, &mut log);
    judge_files(rt, sheet.as_slice(), image.as_slice(), log.as_slice())
}

// The status is told to a script that stands behind it, on descriptor 3. Where that can't be, and where nobody reads the output any more,
// it is the program's own; else that has none.
fn reported(rt: HostRuntime, status: u8, is_reporting: bool) -> ExitCode {
    if (status == UNHEARD) | (is_reporting && !report(rt, status)) {
        return ExitCode::from(status);
    }
    ExitCode::SUCCESS
}

// A script. The places for its arguments would stand on the stack of judging, too.
#[inline(never)]
fn run_named(rt: HostRuntime) -> ExitCode {
    let options = read_options(rt);
    let status = status_of(rt, options);
    reported(rt, status, options.is_reporting)
}

fn main(rt: HostRuntime) -> ExitCode {
    if let Some(at) = judge_at(rt) {
        let status = judge_named(rt, at);
        return reported(rt, status, at == 2);
    }
    run_named(rt)
}
