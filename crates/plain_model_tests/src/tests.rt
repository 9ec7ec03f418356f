//! Worked runs against their texts.

ghost use Rattle.std.specs.Prelude.{IfOk};
ghost use Rattle.plain_model.specs.Place.{Ascends};

use fine_model::{Bytes, Call, Items, NoMemory, Pairs, Reply};
use plain_model::{
    answer_call, answer_calls, pairs_between, put_pair, remove_pair, run_plain, value_of,
};
use std::alloc::Global;

#[test]
fn prints_what_each_script_gives(rt: HostRuntime) -> Result<(), NoMemory> {
    let alloc = rt.alloc();
    let table = [
        ("", "durable 0\n"),
        ("txn 3\nput a 1\nabort\n", "txn 1 abort\ndurable 0\n"),
        (
            "txn 1\ncommit\ntxn 1\nget x\ncommit\n",
            "txn 1 commit 1 epoch 1\ntxn 2 commit 2 epoch 1\nget x none\ndurable 1\n",
        ),
        (
            "txn 1\nput a none\nget a\nget b\ncommit\n",
            "txn 1 commit 1 epoch 1\nput a\nget a = none\nget b none\ndurable 1\n",
        ),
        (
            "txn 1\nput a 1\ncommit\ntxn 1\nput a 2\nabort\ntxn 1\nget a\ncommit\n",
            "txn 1 commit 1 epoch 1\nput a\ntxn 2 abort\ntxn 3 commit 2 epoch 1\nget a = 1\ndurable 1\n",
        ),
        (
            "txn 1\ndel b\nput b 5\ndel b\ndel b\nput b 6\nget b\ncommit\n",
            "txn 1 commit 1 epoch 1\ndel b none\nput b\ndel b\ndel b none\nput b\nget b = 6\ndurable 1\n",
        ),
        (
            "txn 1\nadd c 5\nput t x\nadd t 1\nput m 9223372036854775807\nadd m 1\nget m\nadd m -9223372036854775808\ncommit\n",
            "txn 1 commit 1 epoch 1\nadd c = 5\nput t\nadd t text\nput m\nadd m range\nget m = 9223372036854775807\nadd m = -1\ndurable 1\n",
        ),
        (
            "txn 1\nput b 2\nput aa 1\nput a 0\nscan a a 5\nscan a z 0\nscan a c 10\ncommit\n",
            "txn 1 commit 1 epoch 1\nput b\nput aa\nput a\nscan a a 0\nscan a z 0\nscan a c 3\npair a = 0\npair aa = 1\npair b = 2\ndurable 1\n",
        ),
        (
            "txn 1\nput acct:alice 100\nput acct:bob 50\ncommit\ntxn 1\nadd acct:alice -30\nadd acct:bob 30\ncommit\ntxn 1\nscan acct: acct; 10\ncommit\n",
            "txn 1 commit 1 epoch 1\nput acct:alice\nput acct:bob\ntxn 2 commit 2 epoch 1\nadd acct:alice = 70\nadd acct:bob = 80\ntxn 3 commit 3 epoch 1\nscan acct: acct; 2\npair acct:alice = 70\npair acct:bob = 80\ndurable 1\n",
        ),
        (
            "txn 1\r\nput a 1\r\nget a\r\ncommit",
            "txn 1 commit 1 epoch 1\nput a\nget a = 1\ndurable 1\n",
        ),
        ("txn 1\nput a 1\n", "script line 3\n"),
        ("txn 1\nput a 1", "script line 3\n"),
        ("txn 17\n", "script line 1\n"),
    ];
    for (script, text) in table {
        let printed = run_plain(alloc, script.as_bytes())?;
        assert_eq!(rt; printed.as_slice(), text.as_bytes(), "{script}");
    }
    Ok(())
}

fn bytes(alloc: Global, text: &str) -> Result<Bytes, NoMemory> {
    Bytes::from_slice(alloc, text.as_bytes())
}

/// The map of one pair.
fn map_of(alloc: Global, key: &str, value: &str) -> Result<Pairs, NoMemory>
    ensures { IfOk result Ascends }
{
    let key = bytes(alloc, key)?;
    let value = bytes(alloc, value)?;
    let mut pairs = Items::new(alloc);
    put_pair(&mut pairs, key, value)?;
    Ok(pairs)
}

/// A call that adds to a key.
fn addition(alloc: Global, key: &str, by: i64) -> Result<Call, NoMemory> {
    let key = bytes(alloc, key)?;
    Ok(Call::Add { key, by })
}

#[test]
fn answers_calls_on_a_map(rt: HostRuntime) -> Result<(), NoMemory> {
    let alloc = rt.alloc();
    let call = addition(alloc, "a", 2)?;
    let mut pairs = map_of(alloc, "a", "1")?;
    let mut writes = Items::new(alloc);
    let reply = answer_call(alloc, &mut pairs, &mut writes, &call)?;
    assert!(rt; reply == Reply::Sum { sum: 3 });
    assert_eq!(rt; writes.len(), 1);
    let mut calls = Items::new(alloc);
    calls.push(call)?;
    let answered = answer_calls(alloc, &mut pairs, &calls)?;
    assert!(rt; matches!(answered.replies.as_slice(), [Reply::Sum { sum: 5 }]));
    assert_eq!(rt; answered.writes.len(), 1);
    Ok(())
}

#[test]
fn finds_and_removes_a_pair(rt: HostRuntime) -> Result<(), NoMemory> {
    let alloc = rt.alloc();
    let mut pairs = map_of(alloc, "a", "1")?;
    let low = bytes(alloc, "a")?;
    let high = bytes(alloc, "b")?;
    let found = pairs_between(alloc, &pairs, &low, &high, 9)?;
    assert!(rt; found == pairs);
    remove_pair(&mut pairs, &low);
    assert!(rt; value_of(&pairs, &low).is_none());
    Ok(())
}
