//! The loops and tests that stand round a part, and the loop round a run that a jump leads to.

ghost use Rattle.std.specs.Prelude.{◌≡◌, [], ◌∷◌, map, option_map, IfOk};
ghost use Rattle.rx_resolve_names.specs.Meant as meant;
ghost use Rattle.rx_resolve_names.specs.Meant.{a_loop, a_test};
ghost use Rattle.rx_hoist_extraction.specs.Run.{numbered};
ghost use Rattle.rx_hoist_extraction.specs.Moved.{leaves, beyond};
ghost use Rattle.rx_hoist_changes.specs.Standing.{around_of, around_behind};

use rx_tree::Ident;
use std::alloc::{AllocError, Global};
use std::marker::Model;

/// What stands round a part: a loop with its label and number, or the test of a loop.
#[derive(Clone, Copy)]
enum Around<'t> {
    Loop {
        label: Option<&'t Ident>,
        number: usize,
    },
    Test,
}

/// What stands round a part. Contracts see it as a list, the nearest first.
#[derive(Drop)]
pub struct Loops<'t> {
    /// The nearest last.
    around: Vec<Around<'t>>,
}

impl<'t> Model for Loops<'t> {
    ghost use Rattle.std.specs.Prelude.{List, []};
    ghost use Rattle.rx_resolve_names.specs.Meant.{Around as AroundOf};
    ghost use Rattle.rx_hoist_changes.specs.Standing.{around_behind};

    ghost Value = { List AroundOf };

    ghost view = { λ l. around_behind [] l.around.items };
}

impl<'t> Loops<'t> {
    /// Nothing stands round it. It takes no memory.
    pub fn new(alloc: Global) -> Loops<'t>
        ensures { result ≡ [] }
    {
        Loops {
            around: Vec::new(alloc),
        }
    }

    /// The loops round a run by their labels, the innermost first, with numbers from 1 on.
    pub fn round(alloc: Global, labels: &[Option<&'t Ident>]) -> Result<Loops<'t>, AllocError>
        ensures { IfOk result (λ it. it ≡ numbered 1 (map (option_map (λ l. l.now)) labels.now)) }
    {
        let mut around = Vec::new(alloc);
        let mut left = labels.len();
        while left > 0 {
            around.push(Around::Loop {
                label: labels[left - 1],
                number: left,
            })?;
            left -= 1;
        }
        Ok(Loops { around })
    }

    #[tactic(auto, using(crate::proofs::ScopeLemmas::around_push))]
    fn with(&self, alloc: Global, next: Around<'t>) -> Result<Loops<'t>, AllocError>
        ensures { IfOk result (λ it. it ≡ around_of next.entry ∷ self.now) }
    {
        let mut around = Vec::from_slice(alloc, self.around.as_slice())?;
        around.push(next)?;
        Ok(Loops { around })
    }

    /// A loop of the run itself inside of these.
    pub fn with_loop(
        &self,
        alloc: Global,
        label: &'t Option<Ident>,
    ) -> Result<Loops<'t>, AllocError>
        ensures { IfOk result (λ it. it ≡ a_loop label.now 0 ∷ self.now) }
    {
        let label = label.as_ref();
        self.with(alloc, Around::Loop { label, number: 0 })
    }

    /// The test of a loop inside of these.
    pub fn with_test(&self, alloc: Global) -> Result<Loops<'t>, AllocError>
        ensures { IfOk result (λ it. it ≡ a_test ∷ self.now) }
    {
        self.with(alloc, Around::Test)
    }

    /// The loop round the run that a jump leads to, 0 the innermost.
    pub fn left_by(&self, wanted: &Option<Ident>) -> Option<usize>
        ensures { result ≡ leaves wanted.now self.now }
    {
        loop_left(wanted, self.around.as_slice())
    }
}

/// The loop round the run that a jump leads to. None is left by a jump out of a test.
fn loop_left(wanted: &Option<Ident>, around: &[Around<'_>]) -> Option<usize>
    ensures { result ≡ leaves wanted.now (around_behind [] around.now) }
{
    let mut left = around.len();
    while left > 0 {
        left -= 1;
        match around[left] {
            Around::Test => return None,
            Around::Loop { label, number } => {
                if is_meant(wanted, label) {
                    return outside(number);
                }
            }
        }
    }
    None
}

/// The loop of a number, where it is one round the run.
fn outside(number: usize) -> Option<usize>
    ensures { result ≡ beyond (meant.to_loop number) }
{
    if number > 0 { Some(number - 1) } else { None }
}

/// Whether a loop is the one that a jump leads to, by their labels.
fn is_meant(wanted: &Option<Ident>, label: Option<&Ident>) -> bool
    ensures { result ≡ meant.is_meant wanted.now (option_map (λ l. l.now) label.entry) }
{
    match (wanted, label) {
        (None, _) => true,
        (Some(_), None) => false,
        (Some(wanted), Some(label)) => wanted.name.as_str() == label.name.as_str(),
    }
}
