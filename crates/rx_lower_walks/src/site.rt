//! Sites: what graphs are made of.

ghost use Rattle.std.specs.Prelude.{◌≡◌, [], ◌∷◌, ◌++◌, ◌==◌, IfOk, OnOk, map, if◌then◌else◌};
ghost use Rattle.rx_lower_walks.specs.PlainFlow.{plain-Action};
ghost use Rattle.rx_lower_walks.specs.Actions.{Dead, does};
ghost use Rattle.rx_lower_walks.specs.Pieces.{distinct};
ghost use Rattle.rx_lower_walks.specs.PlainSite.{plain-Site};
ghost use Rattle.rx_lower_walks.specs.Around.{with_variable};
ghost use Rattle.rx_lower_walks.specs.Emitted.{place, dying, closed, closing, with_open};

use crate::around::Around;
use crate::breaks::distinct;
use crate::numbers::place;
use crate::{Act, Action};
use rx_core::{LetGo, List};
use std::alloc::{AllocError, Global};

/// An action, and the sites that may follow it, by their numbers: of a test, the way of its success comes first.
#[derive(Drop)]
pub struct Site {
    pub action: Action,
    pub next: List<u32>,
}

/// A variable that ends where the rest of a sequence does.
#[derive(Drop)]
pub struct Open {
    pub node: usize,
    pub variable: u32,
    /// Whether some walk comes to its end.
    pub reached: bool,
    /// What follows its end.
    pub next: List<u32>,
}

/// Where a walk over a sequence stands: the number of its next site, what follows it, what comes where a test has failed,
/// and the variables that end where the rest of it does.
#[derive(Drop)]
pub struct Stand {
    pub at: u32,
    pub on: List<u32>,
    pub fails: List<u32>,
    pub opens: List<Open>,
}

impl LetGo for Site {
    fn let_go(self) {
        self.action.let_go();
        self.next.let_go();
    }
}

impl LetGo for Open {
    fn let_go(self) {
        self.next.let_go();
    }
}

#[tactic(auto, using(crate::proofs::Closing::sites_push))]
pub fn push_site(out: &mut List<Site>, action: Action, next: List<u32>) -> Result<(), AllocError>
    ensures { OnOk result (map plain-Site out.new ≡ map plain-Site out.old ++ record { action = plain-Action action; next = next } ∷ []) }
{
    out.push(Site { action, next })
}

fn dead(node: usize, variable: u32) -> Action
    ensures { plain-Action result ≡ does node (Dead variable) }
{
    Action {
        node,
        act: Act::Dead(variable),
    }
}

/// What follows a variable's end: that of the next, or what follows them all.
fn behind(alloc: Global, rest: usize, at: u32, end: &[u32]) -> Result<List<u32>, AllocError>
    ensures { IfOk result (λ it. it ≡ (if rest == 0 then distinct end.now else place at 1 ∷ [])) }
{
    if rest == 0 {
        distinct(alloc, end)
    } else {
        let mut next = List::new(alloc);
        next.push(place(at, 1))?;
        Ok(next)
    }
}

/// These variables end at this node, and then comes what follows.
pub fn dying(
    alloc: Global,
    node: usize,
    variables: &[u32],
    at: u32,
    end: &[u32],
    out: &mut List<Site>,
) -> Result<(), AllocError>
    ensures { OnOk result (map plain-Site out.new ≡ map plain-Site out.old ++ dying node variables.now at end.now) }
{
    let mut at = at;
    let mut rest = variables.len();
    for variable in variables {
        rest -= 1;
        let next = behind(alloc, rest, at, end)?;
        push_site(out, dead(node, *variable), next)?;
        at = place(at, 1);
    }
    Ok(())
}

fn close_one(end: Open, around: &mut Around, out: &mut List<Site>) -> Result<(), AllocError>
    ensures sites { OnOk result (map plain-Site out.new ≡ map plain-Site out.old ++ closed end) }
    ensures around { OnOk result ((A : Around) → around.old ≡ with_variable end.variable A → around.new ≡ A) }
{
    around.close();
    if end.reached {
        push_site(out, dead(end.node, end.variable), end.next)
    } else {
        Ok(())
    }
}

/// The variables that are still to end, the last first.
pub fn close(opens: List<Open>, around: &mut Around, out: &mut List<Site>) -> Result<(), AllocError>
    ensures sites { OnOk result (map plain-Site out.new ≡ map plain-Site out.old ++ closing opens) }
    ensures around { OnOk result ((A : Around) → around.old ≡ with_open opens A → around.new ≡ A) }
{
    let mut opens = opens;
    for _turn in 0..opens.len() {
        match opens.pop() {
            Some(end) => close_one(end, around, out)?,
            None => (),
        }
    }
    Ok(())
}
