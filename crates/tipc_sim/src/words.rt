//! The words after the program's name.

ghost use Rattle.std.specs.Prelude.{◌≡◌, OnErr, IfOk, IfErr, IfSome, Err, drop, map};
ghost use Rattle.std.specs.String.{string_bytes};
ghost use Rattle.std.specs.Vec.Iter.{into_iter_items};
ghost use Rattle.std.specs.IoError.{error_kind};
ghost use Rattle.tipc_sim.specs.Words.{form_of, generating, one_word, status_of};

use crate::status::Status;
use std::alloc::{AllocError, Global};
use std::env::Args;
use std::io;
use std::io::ErrorKind;
use tipc_script::number_in;

/// The highest number of a generated script.
const HIGHEST_SEED: u32 = 1000;

/// What the program is asked for. (This project's profile.)
#[derive(Clone, Copy, Debug, PartialEq, Eq)]
pub enum Form {
    /// To run the script of its source.
    Run,
    /// To run the script that a number from 1 to 1,000 stands for.
    Gen(u32),
    /// To dissect the frames of its source, which are lines of hexadecimal.
    Dissect,
}

/// The form of one word: `run` or `dissect`.
fn one_word(word: &str) -> Option<Form>
    ensures { result ≡ one_word word.now }
{
    match word {
        "run" => Some(Form::Run),
        "dissect" => Some(Form::Dissect),
        _ => None,
    }
}

/// The form of two words: `gen` and a number without sign or leading zero.
fn generating(word: &str, number: &str) -> Option<Form>
    ensures { result ≡ generating word.now number.now }
{
    if word != "gen" {
        return None;
    }
    let seed = number_in(number.as_bytes(), 1, HIGHEST_SEED)?;
    Some(Form::Gen(seed))
}

/// The form that the words after the program's name are, if any: `run` or `dissect` alone, or `gen` and a number.
pub fn form_of(words: &[String]) -> Option<Form>
    ensures { result ≡ form_of (map string_bytes words.now) }
{
    match words {
        [word] => one_word(word.as_str()),
        [word, number] => generating(word.as_str(), number.as_str()),
        _ => None,
    }
}

/// The arguments behind the first, which is the program's name.
fn behind_name(alloc: Global, args: Args) -> Result<Vec<String>, AllocError>
    ensures { IfOk result (λ words. words.items ≡ drop 1 (into_iter_items args)) }
{
    args.skip(1).collect(alloc)
}

/// How the program ends that got no arguments.
fn without_args(error: &io::Error) -> Status
    ensures { result ≡ status_of (error_kind error.now) }
{
    match error.kind() {
        ErrorKind::OutOfMemory => Status::NoMemory,
        _ => Status::Usage,
    }
}

/// The words after the program's name, where its arguments are these; else how it ends.
pub fn words_behind(alloc: Global, args: io::Result<Args>) -> Result<Vec<String>, Status>
    ensures words { IfOk result (λ words. IfOk args (λ all. words.items ≡ drop 1 (into_iter_items all))) }
    ensures memory { OnErr result (IfOk args (λ all. result ≡ Err Status.NoMemory)) }
    ensures none { IfErr args (λ error. result ≡ Err (status_of (error_kind error))) }
{
    match args {
        Ok(args) => behind_name(alloc, args).map_err(|_| Status::NoMemory),
        Err(error) => Err(without_args(&error)),
    }
}
