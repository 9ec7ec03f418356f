//! Two runs, what they print, and what their logs then show.

ghost use Rattle.std.specs.Prelude.{◌≤◌, IfOk};
ghost use Rattle.program_runs.specs.Disks.{IsReady};

use log_disk::MemDisk;
use program_runs::{crash, run};
use std::alloc::Global;
use std::sync::Wait;
use std::test::Fail;
use std::thread::Threads;

/// The length of a region, which is the least one.
pub const LENGTH: u64 = 4096;

/// A run in groups of one, so that each transaction is an epoch of its own.
#[derive(Clone, Copy, Debug, PartialEq, Eq)]
pub enum Case {
    /// Three transactions over two accounts, on eight regions.
    Accounts,
    /// Six transactions that put one key, on four regions, so that parts are merged meanwhile.
    Merges,
}

/// The words of a run.
pub const GROUPS_OF_ONE: &[&str] = &["run", "--group", "1"];

impl Case {
    /// How many regions its disk has.
    pub fn regions(self) -> u32
        ensures { (4 ≤ result) × (result ≤ 64) }
    {
        match self {
            Case::Accounts => 8,
            Case::Merges => 4,
        }
    }

    /// Its last epoch.
    pub fn last(self) -> u8 {
        match self {
            Case::Accounts => 3,
            Case::Merges => 6,
        }
    }

    pub fn script(self) -> &'static str {
        match self {
            Case::Accounts => {
                "txn 1|put acct:alice 100|put acct:bob 50|commit|txn 1|add acct:alice -30|add acct:bob 30|commit|txn 1|scan acct: acct; 10|commit|"
            }
            Case::Merges => {
                "txn 1|put a 1|commit|txn 1|put a 2|commit|txn 1|put a 3|commit|txn 1|put a 4|commit|txn 1|put a 5|commit|txn 1|put a 6|commit|"
            }
        }
    }

    /// What it prints where no call fails.
    pub fn whole(self) -> &'static str {
        match self {
            Case::Accounts => {
                "txn 1 commit 1 epoch 1|put acct:alice|put acct:bob|txn 2 commit 2 epoch 2|add acct:alice = 70|add acct:bob = 80|txn 3 commit 3 epoch 3|scan acct: acct; 2|pair acct:alice = 70|pair acct:bob = 80|durable 3|"
            }
            Case::Merges => {
                "txn 1 commit 1 epoch 1|put a|txn 2 commit 2 epoch 2|put a|txn 3 commit 3 epoch 3|put a|txn 4 commit 4 epoch 4|put a|txn 5 commit 5 epoch 5|put a|txn 6 commit 6 epoch 6|put a|durable 6|"
            }
        }
    }

    /// What `dump` prints of a log that ends with an epoch of it.
    pub fn pairs_at(self, end: u8) -> &'static str {
        match self {
            Case::Accounts => match end {
                0 => "pairs 0|",
                1 => "pair acct:alice = 100|pair acct:bob = 50|pairs 2|",
                _ => "pair acct:alice = 70|pair acct:bob = 80|pairs 2|",
            },
            Case::Merges => match end {
                0 => "pairs 0|",
                1 => "pair a = 1|pairs 1|",
                2 => "pair a = 2|pairs 1|",
                3 => "pair a = 3|pairs 1|",
                4 => "pair a = 4|pairs 1|",
                5 => "pair a = 5|pairs 1|",
                _ => "pair a = 6|pairs 1|",
            },
        }
    }
}

/// Does a command on a log on which no call fails: what it prints, and the disk.
pub fn obey<R: Threads + Wait + Sync>(
    rt: &R,
    alloc: Global,
    command: &str,
    disk: MemDisk,
) -> Result<(Vec<u8>, MemDisk), Fail>
    requires { IsReady disk.disk }
    ensures { IfOk result (λ r. IsReady r.1.disk) }
{
    let printed = run(rt, alloc, (&[command], "", (0, 0)), disk)?;
    if printed.finish.status != 0 {
        return Err("a command failed")?;
    }
    Ok((printed.text, crash(printed.finish.disk, &[])?))
}

/// The digit behind the last line that begins with a word, if there is such a line.
pub fn number_behind(text: &[u8], word: &[u8]) -> Option<u8> {
    let mut found = None;
    for at in 0..text.len() {
        if text[at..].starts_with(word) {
            let Some(digit) = text.get(at + word.len()) else {
                return found;
            };
            found = Some(digit.wrapping_sub(b'0'));
        }
    }
    found
}
