// Whole turns of one worker, and the end of its run.
ghost use Rattle.std.specs.Prelude.{◌≡◌, ◌≤◌, IfOk, length};
ghost use Rattle.shared_net.specs.Passes.{new_passes};
ghost use Rattle.shared_net.specs.Turning.{HaveSameOwners};

use crate::cases::{Case, cases};
use crate::counted::{CountGate, Passed};
use crate::passes::{Ended, close_all, turn_at};
use chem_model::{Memory, Program};
use guard_compile::compile;
use join_base::Front;
use shared_net::{Gate, Passes, Run, SharedNet, Turn};
use std::alloc::Global;
use std::marker::Brand;
use std::sync::Wait;
use std::sync::ledger::Blank;
use worked_programs::program_of;

// The number of the first turn that doesn't answer as wanted, and its answer.
type Other = Option<(usize, Option<Turn>)>;

// The network of a program, with so many passes.
pub fn begin<L: Run>(
    alloc: Global,
    program: &Program,
    passes: u32,
    budget: u32,
    blank: Blank,
) -> Result<(SharedNet<L>, Passes<L>), Memory>
    requires passes { (1 ≤ passes) × (passes ≤ 16) }
    requires budget { budget ≤ 4000000 }
    requires name { blank.name ≡ L.name }
    requires parts { blank.parts ≡ L.parts }
    requires one_each { blank.parts ≡ passes }
    requires program { program.now ≡ L.program }
    ensures net { IfOk result (λ r. r.0.budget ≡ budget) }
    ensures passes { IfOk result (λ r. r.1 ≡ new_passes budget 1 passes) }
{
    let code = compile(alloc, program)?;
    SharedNet::start(alloc, program, &code, passes, budget, blank)
}

// The turns of the first worker, up to the first that doesn't answer as wanted.
fn first_other<L: Run, G: Gate, R: Wait>(
    rt: &R,
    alloc: Global,
    net: &SharedNet<L>,
    passes: &mut Passes<L>,
    steps: &[(u32, Turn)],
    gate: &G,
) -> Other
    ensures { HaveSameOwners passes.old passes.new }
{
    for (at, step) in steps.iter().enumerate() {
        let turn = turn_at(rt, alloc, net, passes, 0, step.0, gate);
        if turn != Some(step.1) {
            return Some((at, turn));
        }
    }
    None
}

// The run of these turns, and its end.
fn run_steps<L: Run, G: Gate, R: Wait>(
    rt: &R,
    alloc: Global,
    program: &Program,
    budget: u32,
    blank: Blank,
    steps: &[(u32, Turn)],
    gate: &G,
) -> Result<(Other, Option<Ended>), Memory>
    requires budget { budget ≤ 4000000 }
    requires name { blank.name ≡ L.name }
    requires parts { blank.parts ≡ L.parts }
    requires one { blank.parts ≡ 1 }
    requires program { program.now ≡ L.program }
{
    let (net, passes) = begin::<L>(alloc, program, 1, budget, blank)?;
    let mut passes = passes;
    let other = first_other(rt, alloc, &net, &mut passes, steps, gate);
    Ok((other, close_all(alloc, net, passes)))
}

// The same, of a run of its own.
fn run_alone<G: Gate, R: Wait>(
    rt: &R,
    alloc: Global,
    program: &Program,
    budget: u32,
    steps: &[(u32, Turn)],
    gate: &G,
) -> Result<(Other, Option<Ended>), Memory>
    requires { budget ≤ 4000000 }
{
    run_steps::<Brand, G, R>(rt, alloc, program, budget, Blank::new(1), steps, gate)
}

fn run_case<R: Wait>(
    rt: &R,
    alloc: Global,
    case: &Case,
) -> Result<(Other, Option<Ended>, Passed), Front> {
    let program = program_of(alloc, case.text.as_bytes())?;
    if case.budget > 4_000_000 {
        return Err(Front::Memory);
    }
    let gate = CountGate::new();
    let (other, ended) = run_alone(rt, alloc, &program, case.budget, case.steps, &gate)?;
    Ok((other, ended, gate.passed()))
}

#[test]
fn turns_of_one_worker(rt: HostRuntime) {
    for case in cases() {
        assert_eq!(rt;
            run_case(&rt, rt.alloc(), case),
            Ok((None, Some(case.ended()), case.passed())),
            "{}",
            case.text
        );
    }
}
