//! Every text of a few tokens: what is converted is said to be true by a check, and stays as it is when it is converted again.

use crate::Status;
use crate::tests::{CHECK, CONVERT, Calls, ran};
use std::alloc::Global;
use std::process::Abort;
use std::test::Fail;

const TOKENS: [&[u8]; 8] = [b"C", b"N", b"[O-]", b"(", b")", b"1", b"=", b"."];

/// Adds the text whose tokens are the digits of a number in base eight, a digit for each token.
fn add_text(texts: &mut Vec<u8>, number: u32, tokens: u32) -> Result<(), Fail> {
    let mut rest = number;
    for _ in 0..tokens {
        texts.extend_from_slice(TOKENS[(rest % 8) as usize])?;
        rest /= 8;
    }
    texts.push(b'\n')?;
    Ok(())
}

/// Every text of so many tokens, a line for each.
fn add_texts(texts: &mut Vec<u8>, tokens: u32, count: u32) -> Result<(), Fail> {
    for number in 0..count {
        add_text(texts, number, tokens)?;
    }
    Ok(())
}

/// Runs these words over these inputs, and gives both outputs.
fn outputs(
    rt: &(impl Abort + AllocGlobal),
    words: &[&str],
    inputs: &[&[u8]],
    status: Status,
) -> Result<(Vec<u8>, Vec<u8>), Fail> {
    let alloc = rt.alloc();
    let calls = Calls {
        piece: 4096,
        failing_reads: Vec::new(alloc),
        failing_writes: Vec::new(alloc),
    };
    let (answer, sink) = ran(alloc, words, inputs, calls)?;
    assert!(rt; answer == status);
    Ok((sink.bytes(0).to_vec(alloc)?, sink.bytes(1).to_vec(alloc)?))
}

#[test]
fn each_answer_is_true(rt: HostRuntime) -> Result<(), Fail> {
    let alloc = rt.alloc();
    let mut texts = Vec::new(alloc);
    for (tokens, count) in [(1, 8), (2, 64), (3, 512), (4, 4096)] {
        add_texts(&mut texts, tokens, count)?;
    }
    let (written, report) = outputs(&rt, &CONVERT, &[&texts], Status::SomeRefused)?;
    // each verdict is true, and nothing is extra
    let _verdicts = outputs(&rt, &CHECK, &[&texts, &written, &report], Status::Done)?;
    let (twice, _report) = outputs(&rt, &CONVERT, &[&written], Status::Done)?;
    assert!(&rt; twice == written);
    Ok(())
}
