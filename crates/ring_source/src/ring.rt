// The text of a ring of sites, round which an agent travels.
ghost use Rattle.std.specs.Prelude.{◌≡◌, ◌<◌, ◌≤◌, ◌%◌, ◌++◌, decimal, IfOk, OnOk};
ghost use Rattle.ring_source.specs.Ring.{go_text, rule_text, rules_text, agent_text, agent_at};
ghost use Rattle.ring_source.specs.Ring.{messages_text, message_text, site_text, ring_text};

use chem_model::{Items, Memory, Text};
use std::alloc::Global;
use trace_text::{push_all, push_number};

// How many messages each site has.
const MESSAGES: u32 = 8;

/// The text of the ring of n sites, of which there are 1 to 64.
///
/// Each site has a rule and eight messages that wait for it. The first has an agent besides, which
/// goes round the ring: at each site that it comes to it emits that site's name, and it stops when
/// it is back at the first.
pub fn ring_text(alloc: Global, n: u32) -> Result<Text, Memory>
    requires { (1 ≤ n) × (n ≤ 64) }
    ensures { IfOk result (λ text. text ≡ ring_text n) }
{
    let mut text = Items::new(alloc);
    push_all(&mut text, b"observe out/1;\n")?;
    for i in 0..n {
        push_site(&mut text, n, i)?;
    }
    Ok(text)
}

// Appends the line of site i.
fn push_site(text: &mut Text, n: u32, i: u32) -> Result<(), Memory>
    requires { (1 ≤ n) × (n ≤ 64) }
    ensures { OnOk result (text.new ≡ text.old ++ site_text n i) }
{
    push_numbered(text, b"site s", i)?;
    push_numbered(text, b" [ w", i)?;
    push_all(text, b"() => 0")?;
    push_agent_at(text, n, i)?;
    push_all(text, b" : ")?;
    push_messages(text, i)?;
    push_all(text, b" ]\n")
}

// Appends the agent at the first site, and nothing at the others.
fn push_agent_at(text: &mut Text, n: u32, i: u32) -> Result<(), Memory>
    requires { (1 ≤ n) × (n ≤ 64) }
    ensures { OnOk result (text.new ≡ text.old ++ agent_at n i) }
{
    if i == 0 { push_agent(text, n) } else { Ok(()) }
}

// Appends the agent: its rule at each site, and its first move.
fn push_agent(text: &mut Text, n: u32) -> Result<(), Memory>
    requires { (1 ≤ n) × (n ≤ 64) }
    ensures { OnOk result (text.new ≡ text.old ++ agent_text n) }
{
    push_all(text, b" and m[ k0() => out(s0)")?;
    push_rules(text, n)?;
    push_all(text, b" : ")?;
    push_go(text, 1 % n)?;
    push_all(text, b" ]")
}

// Appends the agent's rule at each site but the first.
fn push_rules(text: &mut Text, n: u32) -> Result<(), Memory>
    requires { (1 ≤ n) × (n ≤ 64) }
    ensures { OnOk result (text.new ≡ text.old ++ rules_text n) }
{
    for j in 1..n {
        push_rule(text, n, j)?;
    }
    Ok(())
}

// Appends the agent's rule at site j: it emits that site, and goes to the next one.
fn push_rule(text: &mut Text, n: u32, j: u32) -> Result<(), Memory>
    requires { (j < n) × (n ≤ 64) }
    ensures { OnOk result (text.new ≡ text.old ++ rule_text n j) }
{
    push_numbered(text, b" and k", j)?;
    push_numbered(text, b"() => out(s", j)?;
    push_all(text, b") | ")?;
    push_go(text, (j + 1) % n)
}

// Appends the move to site q, where the agent's rule of that site goes on.
fn push_go(text: &mut Text, q: u32) -> Result<(), Memory>
    ensures { OnOk result (text.new ≡ text.old ++ go_text q) }
{
    push_numbered(text, b"go(s", q)?;
    push_numbered(text, b", k", q)?;
    push_all(text, b")")
}

// Appends the messages of site i.
fn push_messages(text: &mut Text, i: u32) -> Result<(), Memory>
    ensures { OnOk result (text.new ≡ text.old ++ messages_text i) }
{
    push_message(text, i)?;
    for _message in 1..MESSAGES {
        push_all(text, b" | ")?;
        push_message(text, i)?;
    }
    Ok(())
}

// Appends one message of site i.
fn push_message(text: &mut Text, i: u32) -> Result<(), Memory>
    ensures { OnOk result (text.new ≡ text.old ++ message_text i) }
{
    push_numbered(text, b"w", i)?;
    push_all(text, b"()")
}

// Appends a literal, and a number behind it.
fn push_numbered(text: &mut Text, literal: &[u8], number: u32) -> Result<(), Memory>
    ensures { OnOk result (text.new ≡ text.old ++ literal.now ++ decimal number) }
{
    push_all(text, literal)?;
    push_number(text, u64::from(number))
}
