//! The commands, as the code reads them off the words of a command line.

ghost use Rattle.std.specs.Prelude.{◌≡◌, [], None, Some, IsNone, IfSome, IfOk, drop, unwrap_or};
ghost use Rattle.std.specs.Option.{option_map};
ghost use Rattle.run_meaning.specs.Worlds.{ArgumentsFit};
ghost use Rattle.fort_words.specs.Commands.{exec_read, run_read, if_built, served, args_of, steps_of};
ghost use Rattle.fort_words.specs.Commands.{plain_args, plain_exec, plain_run, plain_command, CommandIsItsWords};

use crate::parts::{args_at, name_at, names_at, steps_at, word_at};
use fc_base::{NoMemory, Words};
use std::alloc::Global;

/// How many instructions a run may take where no bound is written.
const DEFAULT_STEPS: u64 = 100_000_000;

/// The program's arguments: the words of the command line from a place on.
#[derive(Clone, Copy)]
pub struct Arguments<'a> {
    pub words: &'a Words,
    pub first: usize,
}

/// `exec`, which runs the image. Its bound on instructions and its arguments may be left out.
#[derive(Clone, Copy)]
pub struct ExecCommand<'a> {
    pub steps: Option<u64>,
    pub image: &'a str,
    pub args: Option<Arguments<'a>>,
}

/// `run`, which compiles the source, stores its image and runs that.
#[derive(Clone, Copy)]
pub struct RunCommand<'a> {
    pub steps: Option<u64>,
    pub file: &'a str,
    pub image: &'a str,
    pub args: Option<Arguments<'a>>,
}

/// A command that is built, with those of its parts that are read.
#[derive(Clone, Copy)]
pub enum Command<'a> {
    Exec(ExecCommand<'a>),
    Run(RunCommand<'a>),
}

impl<'a> Command<'a> {
    /// How many instructions the run may take: the bound that is written, or the one that stands where none is.
    pub fn steps(&self) -> u64
        ensures { result ≡ steps_of (plain_command self.now) }
    {
        match self {
            Command::Exec(exec) => exec.steps.unwrap_or(DEFAULT_STEPS),
            Command::Run(run) => run.steps.unwrap_or(DEFAULT_STEPS),
        }
    }
}

/// The program's arguments as a list of their own, empty where none are written.
pub fn argument_list(alloc: Global, args: Option<Arguments<'_>>) -> Result<Words, NoMemory>
    ensures { IfOk result (λ list. list ≡ unwrap_or (plain_args args.entry) []) }
{
    match args {
        Some(args) => words_from(alloc, args.words, args.first),
        None => Ok(Words::new(alloc)),
    }
}

/// A list of the words from a place on.
fn words_from(alloc: Global, words: &Words, first: usize) -> Result<Words, NoMemory>
    ensures { IfOk result (λ list. list ≡ drop first words.now) }
{
    let mut list = Words::new(alloc);
    for at in first..words.len() {
        list.push(word_at(words, at))?;
    }
    Ok(list)
}

/// What `exec` is told by the words behind it.
fn exec_of(words: &Words) -> Option<ExecCommand<'_>>
    ensures command { option_map plain_exec result ≡ if_built (exec_read (drop 1 words.now)) }
    ensures fit { IfSome result (λ exec. ArgumentsFit (args_of (plain_exec exec))) }
{
    let (steps, at) = steps_at(words, 1);
    let image = name_at(words, at)?;
    let args = args_at(words, at + 1)?;
    Some(ExecCommand { steps, image, args })
}

/// What `run` is told by the words behind it.
fn run_of(words: &Words) -> Option<RunCommand<'_>>
    ensures command { option_map plain_run result ≡ if_built (run_read (drop 1 words.now)) }
    ensures fit { IfSome result (λ run. ArgumentsFit (args_of (plain_run run))) }
{
    let (steps, at) = steps_at(words, 1);
    let (file, image) = names_at(words, at)?;
    let args = args_at(words, at + 2)?;
    Some(RunCommand {
        steps,
        file,
        image,
        args,
    })
}

/// The command of the words, where it is one that is built.
pub fn read_command(words: &Words) -> Option<Command<'_>>
    ensures some { IfSome result (λ command. served words.now ≡ Some (plain_command command)) }
    ensures none { IsNone result → served words.now ≡ None }
    ensures fit { IfSome result (λ command. ArgumentsFit (args_of (plain_command command))) }
{
    match words.get(0)? {
        "exec" => Some(Command::Exec(exec_of(words)?)),
        "run" => Some(Command::Run(run_of(words)?)),
        _ => None,
    }
}

/// The words are a command exactly where they are its words, and its parts keep what they must. Runs nothing.
pub fn command_is_its_words()
    ensures { CommandIsItsWords }
{}
