// Prints one journal: the first argument names a site file and the second a journal file, and the text goes to standard output.
// Where an argument is missing, or a file cannot be read, a message goes to standard error, and nothing is printed.
#![tactic(auto)]

ghost use Rattle.std.specs.Prelude.{◌≤◌, IfOk, length};

use model::numbers::{ANSWER_SIZE, ENTRY_SIZE, LARGEST_JOURNAL, LARGEST_SITE};
use print::numbers::LINE_SIZE;
use std::env::{Env, FillError};
use std::fs::File;
use std::io::{Read, Write};
use std::{fmt, io};

// Memory is fixed, with no Vec or String. A byte more than the largest file that is worked through: a larger one fills its buffer, and is turned back by
// its length.
const SITE_ROOM: usize = LARGEST_SITE + 1;

const JOURNAL_ROOM: usize = LARGEST_JOURNAL + 1;

// An answer and a line for each entry.
const ANSWERS_ROOM: usize = JOURNAL_ROOM / ENTRY_SIZE * ANSWER_SIZE;

const TEXT_ROOM: usize = JOURNAL_ROOM / ENTRY_SIZE * LINE_SIZE;

// No longer name is opened.
const PATH_ROOM: usize = 4096;

// Why nothing is printed.
#[derive(Drop)]
enum Failure<'n> {
    Usage,
    NameTooLong,
    NameNotUtf8,
    Unread(&'n str, io::Error),
    NoRoom,
    Unwritten(io::Error),
}

impl<'n> fmt::Display for Failure<'n> {
    fn fmt<W: fmt::Write>(&self, f: &mut fmt::Formatter<W>) -> fmt::Result {
        match self {
            Failure::Usage => write!(f, "usage: print_journal SITE JOURNAL"),
            Failure::NameTooLong => write!(f, "file name: too long"),
            Failure::NameNotUtf8 => write!(f, "file name: not UTF-8"),
            Failure::Unread(name, error) => write!(f, "{name}: {error}"),
            Failure::NoRoom => write!(f, "print_journal: no room for the text"),
            Failure::Unwritten(error) => write!(f, "standard output: {error}"),
        }
    }
}

// Reads until the file ends or the buffer is full, and hands back the part that was filled, no longer than the buffer: so the state of a site fits the room
// that `print_files` has for one. The loop is a `while`: the count moves by what a read gives, and no iterator of std's promises that.
fn read_open<'a>(file: &mut File, bytes: &'a mut [u8]) -> io::Result<&'a [u8]>
    ensures { IfOk result (λ part. length part.now ≤ length bytes.old) }
{
    let mut count = 0;
    while count < bytes.len() {
        match file.read(&mut bytes[count..])? {
            0 => break,
            n => count += n,
        }
    }
    Ok(&bytes[..count])
}

// Reads the file of this name.
fn read_path<'a>(rt: &HostRuntime, path: &str, bytes: &'a mut [u8]) -> io::Result<&'a [u8]>
    ensures { IfOk result (λ part. length part.now ≤ length bytes.old) }
{
    let mut file = File::open(rt, path)?;
    read_open(&mut file, bytes)
}

// Reads the file that argument i names: the part of the buffer that was filled.
fn read_file<'n, 'a>(
    rt: &HostRuntime,
    i: usize,
    name: &'n mut [u8],
    bytes: &'a mut [u8],
) -> Result<&'a [u8], Failure<'n>>
    ensures { IfOk result (λ part. length part.now ≤ length bytes.old) }
{
    let n = rt.arg(i, name).map_err(|_| Failure::NameTooLong)?;
    let path = str::from_utf8(&name[..n]).map_err(|_| Failure::NameNotUtf8)?;
    read_path(rt, path, bytes).map_err(|error| Failure::Unread(path, error))
}

// Whether argument i is there.
fn is_given(rt: &HostRuntime, i: usize) -> bool {
    !matches!(rt.arg(i, &mut []), Err(FillError::NotPresent))
}

// Prints the journal of these bytes. State, answers and text are lent to work in; those of `print_files` have room for every journal that it reads.
fn print_bytes(
    rt: &HostRuntime,
    site: &[u8],
    journal: &[u8],
    state: &mut [u8],
    answers: &mut [u8],
    text: &mut [u8],
) -> Result<(), Failure<'static>> {
    // No `ok_or`: the check does not find the bound of the length after it.
    let Some(length) = print::print_journal(site, journal, state, answers, text) else {
        return Err(Failure::NoRoom);
    };
    // No `map_err`: the check does not cover one whose result names a lifetime, here `'static`, that its argument does not.
    match rt.stdout().write_all(&text[..length]) {
        Ok(()) => Ok(()),
        Err(error) => Err(Failure::Unwritten(error)),
    }
}

// Prints the journal of the two files that the arguments name. Their names are put into lent buffers, since a failure that is handed back may hold one.
fn print_files<'n>(
    rt: &HostRuntime,
    site_name: &'n mut [u8],
    journal_name: &'n mut [u8],
) -> Result<(), Failure<'n>> {
    if !is_given(rt, 2) || is_given(rt, 3) {
        return Err(Failure::Usage);
    }
    let mut site_room = [0u8; SITE_ROOM];
    let site = read_file(rt, 1, site_name, &mut site_room)?;
    let mut journal_room = [0u8; JOURNAL_ROOM];
    let journal = read_file(rt, 2, journal_name, &mut journal_room)?;
    let mut state = [0u8; SITE_ROOM];
    let mut answers = [0u8; ANSWERS_ROOM];
    let mut text = [0u8; TEXT_ROOM];
    let state_size = view::state_length(site);
    let answers_size = journal.len() / ENTRY_SIZE * ANSWER_SIZE;
    print_bytes(
        rt,
        site,
        journal,
        &mut state[..state_size],
        &mut answers[..answers_size],
        &mut text,
    )
}

fn main(rt: HostRuntime) {
    let mut site_name = [0u8; PATH_ROOM];
    let mut journal_name = [0u8; PATH_ROOM];
    if let Err(failure) = print_files(&rt, &mut site_name, &mut journal_name) {
        // Where the message cannot be written, nothing more can be said.
        let _ = eprintln!(rt; "{failure}");
    }
}
