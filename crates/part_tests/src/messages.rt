// One message, on an observed name and on a channel. Bodies and openings are run where there is a
// compiler.
ghost use Rattle.std.specs.Prelude.{◌≤◌, length};
ghost use Rattle.chem_model.specs.Each.{Each};
ghost use Rattle.wire_packet.specs.Operations.{IsPlain, HasCount};

use chem_model::{AtomId, Items, Loc, Memory, Name};
use code_run::{Post, Run, message};
use std::alloc::Global;

const ROOT: Loc = Loc { site: 0, k: 0 };

const HOME: Loc = Loc { site: 1, k: 4 };

// What the message 0.7 makes at the root of site 0, where these counts are declared.
fn run_of(alloc: Global, counts: &[u32], on: Name, args: &[Name]) -> Result<Run, Memory>
    requires few { length args.now ≤ 255 }
    requires plain { Each IsPlain args.now }
    requires count { HasCount on (length args.now) }
{
    let counts = Items::from_slice(alloc, counts)?;
    let args = Items::from_slice(alloc, args)?;
    message(alloc, &counts, 0, &ROOT, on, args, 7)
}

// Whether this is the next number, and there are so many posts and observables.
fn has_sizes(run: &Run, next: u64, posts: usize, outs: usize) -> bool {
    run.next == next && run.posts.len() == posts && run.outs.len() == outs
}

// Whether it is the message 0.7 on this name, at its home.
fn is_post(post: Option<&Post>, on: Name) -> bool {
    match post {
        Some(Post::Message(waiting)) => {
            waiting.loc == HOME
                && waiting.msg.id == AtomId { site: 0, k: 7 }
                && waiting.msg.on == on
        }
        _ => false,
    }
}

// Whether a message of one name on this name, which is declared so, leads to an observable and
// nothing else.
fn is_observed(alloc: Global, on: Name) -> bool
    requires { HasCount on 1 }
{
    match run_of(alloc, &[1], on, &[Name::Place(ROOT)]) {
        Ok(run) => has_sizes(&run, 7, 0, 1),
        Err(_) => false,
    }
}

#[test]
fn observed_with_the_declared_count(rt: HostRuntime) {
    assert!(rt; is_observed(rt.alloc(), Name::Seen(0)));
}

// Whether a message on this name leads to a post and nothing else.
fn is_posted(alloc: Global, on: Name) -> bool
    requires { HasCount on 0 }
{
    match run_of(alloc, &[], on, &[]) {
        Ok(run) => has_sizes(&run, 8, 1, 0) && is_post(run.posts.as_slice().first(), on),
        Err(_) => false,
    }
}

#[test]
fn on_a_channel_of_another_location(rt: HostRuntime) {
    let on = Name::Chan {
        site: 1,
        k: 5,
        home: HOME,
    };
    assert!(rt; is_posted(rt.alloc(), on));
}
