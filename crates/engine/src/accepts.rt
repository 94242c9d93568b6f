ghost use Rattle.std.specs.Prelude.{◌≡◌, length};
ghost use Rattle.std.specs.List.{list_all};
ghost use Rattle.records.specs.Letters.{form_of};
ghost use Rattle.semantics.specs.Plain.{well_formed, proper, fits};
ghost use Rattle.refinement.specs.Calls.{sized};

use lts::Source;
use records::{EquationRecord, Form};

// Whether the form is known, its places name what is there among `n` variables, and unused ones are 0.
#[tactic(auto, unfolding(semantics::specs::Plain::well_formed))]
fn well_formed<S: Source>(source: &S, n: usize, written: &EquationRecord) -> bool
    ensures { result ≡ well_formed (sized (S.answers source.now)) n (form_of written.now.form) written.now.first written.now.second }
{
    let first = usize::from(written.first);
    let second = usize::from(written.second);
    match Form::try_from(written.form) {
        Err(_) => false,
        Ok(Form::True | Form::False) => first == 0 && second == 0,
        Ok(Form::Atom) => first < source.atoms() && second == 0,
        Ok(Form::Or | Form::And) => first < n && second < n,
        Ok(Form::Diamond | Form::Box) => first < source.actions() && second < n,
    }
}

// Whether each of the records is well-formed.
fn all_well_formed<S: Source>(source: &S, records: &[EquationRecord]) -> bool
    ensures { result ≡ list_all (λ r. well_formed (sized (S.answers source.now)) (length records.now) (form_of r.form) r.first r.second) records.now }
{
    records
        .iter()
        .all(|written| well_formed(source, records.len(), written))
}

/// Whether there are 1 to 1,024 records, each well-formed.
#[tactic(auto, unfolding(semantics::specs::Plain::proper), using(crate::proofs::Remaining::all_listed))]
pub fn proper<S: Source>(source: &S, records: &[EquationRecord]) -> bool
    ensures { result ≡ proper (sized (S.answers source.now)) records.now }
{
    (1..=1024).contains(&records.len()) && all_well_formed(source, records)
}

/// Whether there are at most 8,192 pairs.
#[tactic(auto, unfolding(semantics::specs::Plain::fits))]
pub fn fits<S: Source>(source: &S, records: &[EquationRecord]) -> bool
    ensures { result ≡ fits (sized (S.answers source.now)) records.now }
{
    source.states().saturating_mul(records.len()) <= 8192
}
