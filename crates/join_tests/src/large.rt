// Programs with as many sites or levels as there may be, by each command.
ghost use denote.Param.Send.{IsSync};

use crate::expected::{expect_bytes, expect_status};
use std::alloc::{AllocError, Global};
use std::marker::Sync;
use std::process::Abort;
use std::sync::Wait;
use std::test::Fail;
use std::thread::Threads;
use worked_calls::call;

// That a text ends so with these words.
fn expect_with<R: AllocGlobal + Abort + Threads + Wait + Sync>(
    rt: &R,
    words: &[&str],
    text: &[u8],
    status: u8,
    out: &[u8],
    err: &[u8],
) -> Result<(), Fail>
    requires { IsSync R.row }
{
    let run = call(rt, words, text)?;
    expect_status(rt, &run, status);
    expect_bytes(rt, run.out.as_slice(), out);
    expect_bytes(rt, run.err.as_slice(), err);
    Ok(())
}

// That a text ends so by each command.
fn expect_so<R: AllocGlobal + Abort + Threads + Wait + Sync>(
    rt: &R,
    text: &[u8],
    status: u8,
    out: &[u8],
    err: &[u8],
) -> Result<(), Fail>
    requires { IsSync R.row }
{
    expect_with(rt, &["alone"], text, status, out, err)?;
    expect_with(rt, &["rounds"], text, status, out, err)?;
    expect_with(rt, &["run"], text, status, out, err)?;
    expect_with(rt, &["lossy"], text, status, out, err)
}

// Three digits.
fn push_digits(text: &mut Vec<u8>, number: u32) -> Result<(), AllocError> {
    text.push(b'0' + (number / 100 % 10) as u8)?;
    text.push(b'0' + (number / 10 % 10) as u8)?;
    text.push(b'0' + (number % 10) as u8)?;
    Ok(())
}

// A text of version 2 with so many sites, fewer than 1,000.
fn sites(alloc: Global, count: u32) -> Result<Vec<u8>, AllocError> {
    let mut text = Vec::new(alloc);
    text.extend_from_slice(b"version 2; ")?;
    for number in 0..count {
        text.extend_from_slice(b"site s")?;
        push_digits(&mut text, number)?;
        text.extend_from_slice(b" [none:0] ")?;
    }
    Ok(text)
}

#[test]
fn as_many_sites_as_there_may_be(rt: HostRuntime) -> Result<(), Fail> {
    let text = sites(rt.alloc(), 256)?;
    expect_so(&rt, text.as_slice(), 0, b"quiescent\n", b"")
}

#[test]
fn one_site_too_many(rt: HostRuntime) -> Result<(), Fail> {
    let text = sites(rt.alloc(), 257)?;
    expect_so(&rt, text.as_slice(), 1, b"", b"scope 6 at 4875\n")
}

fn push_times(text: &mut Vec<u8>, count: u32, piece: &[u8]) -> Result<(), AllocError> {
    for _time in 0..count {
        text.extend_from_slice(piece)?;
    }
    Ok(())
}

// A text of version 2 with a rule within the body of a rule, and so on, so many and one deep. Each
// reaction makes the next rule, and a message for it that hands on the name received; the last
// shows the name.
fn rules(alloc: Global, count: u32) -> Result<Vec<u8>, AllocError> {
    let mut text = Vec::new(alloc);
    text.extend_from_slice(b"version 2; observe out/1; site s [ none : def a(u) => ")?;
    push_times(&mut text, count, b"def a(u) => ")?;
    text.extend_from_slice(b"out(u)")?;
    push_times(&mut text, count, b" in a(u)")?;
    text.extend_from_slice(b" in a(s) ]")?;
    Ok(text)
}

// That as many levels of rules as there may be are run to the last one by these words. The site
// opens the first of 400 levels, and each rule one more.
fn expect_all_levels<R: AllocGlobal + Abort + Threads + Wait + Sync>(
    rt: &R,
    words: &[&str],
) -> Result<(), Fail>
    requires { IsSync R.row }
{
    let text = rules(rt.alloc(), 398)?;
    expect_with(rt, words, text.as_slice(), 0, b"out(s)\nquiescent\n", b"")
}

#[test]
fn all_levels_of_rules_alone(rt: HostRuntime) -> Result<(), Fail> {
    expect_all_levels(&rt, &["alone"])
}

#[test]
fn all_levels_of_rules_in_rounds(rt: HostRuntime) -> Result<(), Fail> {
    expect_all_levels(&rt, &["rounds"])
}

#[test]
fn all_levels_of_rules_on_free_threads(rt: HostRuntime) -> Result<(), Fail> {
    expect_all_levels(&rt, &["run"])
}

#[test]
fn all_levels_of_rules_over_links(rt: HostRuntime) -> Result<(), Fail> {
    expect_all_levels(&rt, &["lossy"])
}

#[test]
fn one_level_of_rules_too_many(rt: HostRuntime) -> Result<(), Fail> {
    let text = rules(rt.alloc(), 399)?;
    expect_so(&rt, text.as_slice(), 1, b"", b"grammar 2 at 4830\n")
}

// A message of 255 arguments, and so many without any, are sent to another site. There a rule
// takes the first, and the others wait.
fn crowd(alloc: Global, count: u32) -> Result<Vec<u8>, AllocError> {
    let mut text = Vec::new(alloc);
    text.extend_from_slice(b"observe out/0; site s [ none : x(s")?;
    push_times(&mut text, 254, b", s")?;
    text.extend_from_slice(b")")?;
    push_times(&mut text, count, b" | y()")?;
    text.extend_from_slice(b" ] site t [ y() | never() => 0 and x(u")?;
    for number in 1..255 {
        text.extend_from_slice(b", u")?;
        push_digits(&mut text, number)?;
    }
    text.extend_from_slice(b") => out() : 0 ]")?;
    Ok(text)
}

#[test]
fn a_crowd_from_another_site(rt: HostRuntime) -> Result<(), Fail> {
    let text = crowd(rt.alloc(), 70_000)?;
    expect_so(&rt, text.as_slice(), 0, b"out()\nquiescent\n", b"")
}
