//! Two nodes of a view of three, against decisions set by hand.

ghost use Rattle.std.specs.Prelude.{◌≡◌, IfOk, None};
ghost use Rattle.update_records.specs.Validity.{IsValid};
ghost use Rattle.gum_core.specs.Updating.{entered, fresh, opened};

use crate::{Core, Decision};
use clus_names::Path;
use gum_messages::{Member, View};
use std::alloc::{AllocError, Global};
use std::test::Fail;
use update_records::Update;

fn view_of_three(alloc: Global) -> Result<View, Fail> {
    let members = [1, 2, 3].map(|node| Member { node, inc: 1 });
    Ok(View::new(1, members.to_vec(alloc)?).ok_or("refused")?)
}

fn core_of(alloc: Global, node: u16, view: &View) -> Result<Core, AllocError>
    ensures { IfOk result (λ core. core ≡ (opened (entered (fresh node) view.now) None).0) }
{
    let mut core = Core::new(alloc, node);
    core.enter(view)?;
    let _ = core.open(None);
    Ok(core)
}

fn update(alloc: Global) -> Update
    ensures { IsValid result }
{
    Update::Create {
        key: Path::root(alloc),
        birth: 0,
        subkey: Path::root(alloc),
    }
}

#[test]
fn spreading_at_the_sender(rt: HostRuntime) -> Result<(), Fail> {
    let alloc = rt.alloc();
    let mut core = core_of(alloc, 2, &view_of_three(alloc)?)?;
    assert_eq!(rt; core.submit(update(alloc))?, (1, Decision::Ask { req: 1 }));
    assert_eq!(rt; core.granted(1, 1), Decision::Spread { to: 2, place: 1 });
    assert_eq!(rt; core.applied(3, 1), Decision::Nothing);
    assert_eq!(rt; core.applied(2, 1), Decision::Spread { to: 3, place: 1 });
    let finish = Decision::Finish {
        req: 1,
        place: 1,
        next: None,
    };
    assert_eq!(rt; core.applied(3, 1), finish);
    assert_eq!(rt; core.granted(1, 1), Decision::ReleaseAgain { req: 1 });
    Ok(())
}

#[test]
fn lock_at_the_locker(rt: HostRuntime) -> Result<(), Fail> {
    let alloc = rt.alloc();
    let view = view_of_three(alloc)?;
    assert_eq!(rt; view.members().incarnation(2), 1);
    let mut core = core_of(alloc, 1, &view)?;
    let grant = Decision::Grant {
        to: 2,
        req: 1,
        place: 1,
    };
    assert_eq!(rt; core.ask(2, 1, 0), Decision::Write { from: 2, req: 1 });
    assert_eq!(rt; core.logged(2, 1, 1), grant);
    assert_eq!(rt; core.ask(2, 1, 1), grant);
    assert_eq!(rt; core.ask(3, 1, 1), Decision::Nothing);
    assert_eq!(rt; core.release(2, 1), Decision::Free);
    assert_eq!(rt; core.ask(2, 1, 1), Decision::Nothing);
    assert_eq!(rt; core.ask(3, 1, 1), Decision::Write { from: 3, req: 1 });
    Ok(())
}
