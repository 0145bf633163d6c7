// One contact: how it is held, and its run of newest samples that are the opposite.
#![tactic(auto)]

ghost use Rattle.std.specs.Prelude.{◌≡◌};
ghost use Rattle.contact.specs.Contact.{moved, sampled, stepped};

// What a look shows of a contact: nothing, or how it reads.
// kept: of two words that both say no, `None` and `Some(false)` would be no plainer
#[derive(Clone, Copy, Debug, PartialEq, Eq)]
pub enum Sight {
    Hidden,
    Open,
    Closed,
}

// The test of a contact at one look.
#[derive(Clone, Copy, Debug, PartialEq, Eq)]
pub struct Contact {
    pub held: bool,
    pub run: u8,
    pub changed: bool,
    // does its newest sample differ from how it is held now?
    pub settling: bool,
}

// What a look over many contacts needs of each: all but settling, which the run tells. Three bytes are returned faster than four.
// kept: with four a calm look took 1.44 times plain C, with three 1.27 (docs/PERFORMANCE.md)
#[derive(Clone, Copy, Debug, PartialEq, Eq)]
pub struct Moved {
    pub held: bool,
    pub run: u8,
    pub changed: bool,
}

// One sample more of a contact, under the KBDBOUNCE in force.
#[tactic(auto, unfolding(crate::specs::Contact::moved, crate::specs::Contact::sampled, crate::specs::Contact::opposite, crate::specs::Contact::looks))]
fn sample(held: bool, run: u8, closed: bool, bounce: u8) -> Moved
    ensures { result ≡ moved (sampled held run closed bounce) }
{
    if closed == held {
        Moved {
            held,
            run: 0,
            changed: false,
        }
    } else if bounce.saturating_sub(1) <= run {
        Moved {
            held: closed,
            run: 0,
            changed: true,
        }
    } else {
        Moved {
            held,
            run: run + 1,
            changed: false,
        }
    }
}

// One look more at a contact: if it is hidden, it stays as it is.
#[tactic(auto, unfolding(crate::specs::Contact::moved, crate::specs::Contact::stepped))]
pub fn follow(held: bool, run: u8, sight: Sight, bounce: u8) -> Moved
    ensures { result ≡ moved (stepped held run sight bounce) }
{
    match sight {
        Sight::Hidden => Moved {
            held,
            run,
            changed: false,
        },
        Sight::Open => sample(held, run, false, bounce),
        Sight::Closed => sample(held, run, true, bounce),
    }
}

// The test of a single contact: held, run, changed or not, settling or not. It is settling exactly if it has a run.
#[tactic(auto, using(crate::proofs::Laws::told_by_moved))]
pub fn step(held: bool, run: u8, sight: Sight, bounce: u8) -> Contact
    ensures { result ≡ stepped held run sight bounce }
{
    let Moved { held, run, changed } = follow(held, run, sight, bounce);
    Contact {
        held,
        run,
        changed,
        settling: 0 < run,
    }
}
