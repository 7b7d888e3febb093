//! The words of the command line: one, which names what is asked, and behind three of them the option `--unverified`.

ghost use Rattle.std.specs.Prelude.{◌≡◌};
ghost use Rattle.def_psbt_answer.specs.Words.{plain_requests, unverified_requests, request_in, request_of};

use def_psbt_answer::{Command, Request};
use def_spend::Verification;
use ms_words::Word;

/// What the words ask, or `None` exactly where they ask nothing. Takes no memory.
pub fn read_request(words: &[Word]) -> Option<Request>
    ensures { result ≡ request_of words.now }
{
    match words {
        [word] => request_named(word.as_str().as_bytes()),
        [word, option] => {
            if b"--unverified".as_slice() == option.as_str().as_bytes() {
                unverified_request_named(word.as_str().as_bytes())
            } else {
                None
            }
        }
        _ => None,
    }
}

/// What is asked by this name alone.
fn request_named(name: &[u8]) -> Option<Request>
    ensures { result ≡ request_in plain_requests name.now }
{
    if b"finalize".as_slice() == name {
        Some(Request::One(Command::Finalize(Verification::Verified)))
    } else if b"inspect".as_slice() == name {
        Some(Request::One(Command::Inspect(Verification::Verified)))
    } else if b"extract".as_slice() == name {
        Some(Request::One(Command::Extract))
    } else if b"hashes".as_slice() == name {
        Some(Request::One(Command::Hashes(Verification::Verified)))
    } else if b"verify".as_slice() == name {
        Some(Request::One(Command::Verify))
    } else if b"combine".as_slice() == name {
        Some(Request::Combine)
    } else {
        None
    }
}

/// What is asked by this name with the option behind it.
fn unverified_request_named(name: &[u8]) -> Option<Request>
    ensures { result ≡ request_in unverified_requests name.now }
{
    if b"finalize".as_slice() == name {
        Some(Request::One(Command::Finalize(Verification::Unverified)))
    } else if b"inspect".as_slice() == name {
        Some(Request::One(Command::Inspect(Verification::Unverified)))
    } else if b"hashes".as_slice() == name {
        Some(Request::One(Command::Hashes(Verification::Unverified)))
    } else {
        None
    }
}
