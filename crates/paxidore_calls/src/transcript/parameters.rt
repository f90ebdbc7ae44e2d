//! Parameters whose elements stand in a form.

ghost use Rattle.std.specs.Prelude.{◌≡◌, ℕ, ◌++◌, List, map, IfErr, IfOk, OnOk, Ok};
ghost use Rattle.ark_base.specs.Digits.{IsBelow};
ghost use Rattle.ark_base.specs.Outcome.{IsMemory};
ghost use Rattle.ark_base.specs.Spelling.{IsCounted, counted_list, counted_list_at};
ghost use Rattle.ark_sponge.specs.ConfigBytes.{HaveSpelling, fields_of, fields_spelling};
ghost use Rattle.ark_sponge.specs.Permutation.{lawful_parameters};
ghost use Rattle.paxidore_calls.specs.Answer.{CallGivesBy};
ghost use Rattle.paxidore_calls.specs.Transcript.{field_size, formed, parameters_in, prepared_bytes};

use crate::refused::Refused;
use crate::transcript::forms::{ElementForm, Own};
use crate::transcript::items::{ReadsItem, read_each_item};
use crate::transcript::reading::read_whole;
use ark_base::error::{Error, SerializationError};
use ark_base::serialize::{Canonical, CanonicalDeserialize, CanonicalSerialize, rest_of};
use ark_groups::ff::{Field, Valued};
use ark_sponge::poseidon::PoseidonConfig;
use std::alloc::Global;
use std::marker::PhantomData;

// Rows of elements in a form.
#[derive(Drop)]
struct Rows<F: Valued, E> {
    rows: Vec<Vec<F>>,
    form: PhantomData<E>,
}

// A row in a form: the count in eight bytes, then the elements.
struct Row<E> {
    form: PhantomData<E>,
}

impl<F: Field, E: ElementForm<F>> ReadsItem<Vec<F>> for Row<E> {
    ghost Value = { List ℕ };

    ghost view = { λ row. map F.value row.items };

    ghost reads = { counted_list_at E.form.reads };

    #[tactic(auto, unfolding(ark_base::specs::Spelling::then_at))]
    fn read_item(alloc: Global, bytes: &[u8]) -> Result<(Vec<F>, usize), Error> {
        let (count, used) = u64::read(alloc, bytes)?;
        let (row, more) = E::read_elements(alloc, count, rest_of(bytes, used))?;
        Ok((row, used + more))
    }
}

impl<F: Field, E: ElementForm<F>> Canonical for Rows<F, E> {
    ghost use Rattle.ark_base.specs.Laws.Lists.{counted_list_laws};

    ghost Value = { List (List ℕ) };

    ghost view = { λ rows. map (λ row. map F.value row.items) rows.rows.items };

    ghost has_spelling = { IsCounted (IsCounted (IsBelow E.modulus)) };

    ghost spelling = { counted_list (counted_list E.form.spells) };

    ghost reads = { counted_list_at (counted_list_at E.form.reads) };

    ghost laws = { counted_list_laws (IsCounted (IsBelow E.modulus)) (counted_list E.form.spells)
        (counted_list_at E.form.reads)
        (counted_list_laws (IsBelow E.modulus) E.form.spells E.form.reads E.laws) };
}

impl<F: Field, E: ElementForm<F>> CanonicalDeserialize for Rows<F, E> {
    /// Errors: those of the count, then of the rows; `OutOfMemory`.
    #[tactic(auto, unfolding(ark_base::specs::Spelling::then_at))]
    fn read(alloc: Global, bytes: &[u8]) -> Result<(Rows<F, E>, usize), Error> {
        let (count, used) = u64::read(alloc, bytes)?;
        let (rows, more) = read_each_item::<Vec<F>, Row<E>>(alloc, count, 8, rest_of(bytes, used))?;
        let rows = Rows {
            rows,
            form: PhantomData,
        };
        Ok((rows, used + more))
    }
}

// Full rounds, partial rounds, exponent, constants, matrix, rate and capacity.
type Fields<F, E> = (
    usize,
    (usize, (u64, (Rows<F, E>, (Rows<F, E>, (usize, usize))))),
);

// Parameters whose elements stand in a form.
#[derive(Drop)]
struct Formed<F: Valued, E> {
    parameters: PoseidonConfig<F>,
    form: PhantomData<E>,
}

impl<F: Field, E: ElementForm<F>> Canonical for Formed<F, E> {
    ghost use Rattle.std.specs.Prelude.{◌≡◌, Ok};
    ghost use Rattle.ark_base.specs.Digits.{IsBelow};
    ghost use Rattle.ark_sponge.specs.ConfigBytes.{HaveSpelling, fields_of, fields_spelling, parameters_by};
    ghost use Rattle.ark_sponge.specs.Laws.ConfigBytes.{parameters_by_laws};
    ghost use Rattle.ark_sponge.specs.Permutation.{Parameters, lawful_parameters};

    ghost Value = { Parameters };

    ghost view = { λ formed. formed.parameters };

    ghost has_spelling = { λ c. HaveSpelling (IsBelow E.modulus) (fields_of c)
        × (lawful_parameters F.MODULUS_BIT_SIZE c ≡ Ok c) };

    ghost spelling = { λ c. fields_spelling E.form.spells (fields_of c) };

    ghost reads = { parameters_by E.form.reads F.MODULUS_BIT_SIZE };

    ghost laws = { parameters_by_laws F.MODULUS_BIT_SIZE (IsBelow E.modulus) E.form.spells
        E.form.reads E.laws };
}

impl<F: Field, E: ElementForm<F>> CanonicalDeserialize for Formed<F, E> {
    /// Errors: those of the fields in turn, then `InvalidData` where `PoseidonConfig::new` refuses them; `OutOfMemory`.
    #[tactic(auto, unfolding(ark_base::specs::Spelling::made_at, ark_sponge::specs::ConfigBytes::tested_at))]
    fn read(alloc: Global, bytes: &[u8]) -> Result<(Formed<F, E>, usize), Error> {
        let (fields, used) = Fields::<F, E>::read(alloc, bytes)?;
        let (full_rounds, (partial_rounds, (alpha, (ark, (mds, (rate, capacity)))))) = fields;
        let Rows { rows: ark, .. } = ark;
        let Rows { rows: mds, .. } = mds;
        match PoseidonConfig::plain(full_rounds, partial_rounds, alpha, mds, ark, rate, capacity) {
            Ok(parameters) => {
                let formed = Formed {
                    parameters,
                    form: PhantomData,
                };
                Ok((formed, used))
            }
            Err(_) => Err(Error::SerializationError(SerializationError::InvalidData)),
        }
    }
}

// Appends a row. The only error is `OutOfMemory`.
fn write_row<F: Field, E: ElementForm<F>>(row: &[F], dest: &mut Vec<u8>) -> Result<(), Error>
    ensures appended { let bytes = counted_list E.form.spells (map F.value row.now) in
        OnOk result (dest.new.items ≡ dest.old.items ++ bytes) }
    ensures refused { IfErr result IsMemory }
{
    row.len().serialize(dest)?;
    E::write_elements(row, dest)
}

// Appends rows: their count in eight bytes, then each. The only error is `OutOfMemory`.
fn write_rows<F: Field, E: ElementForm<F>>(rows: &[Vec<F>], dest: &mut Vec<u8>) -> Result<(), Error>
    ensures appended { let bytes = counted_list (counted_list E.form.spells)
        (map (λ row. map F.value row.items) rows.now) in
        OnOk result (dest.new.items ≡ dest.old.items ++ bytes) }
    ensures refused { IfErr result IsMemory }
{
    rows.len().serialize(dest)?;
    for row in rows {
        write_row::<F, E>(row, dest)?;
    }
    Ok(())
}

// Returns the bytes of parameters in a form. The only error is `OutOfMemory`.
fn formed_bytes<F: Field, E: ElementForm<F>>(
    alloc: Global,
    parameters: &PoseidonConfig<F>,
) -> Result<Vec<u8>, Error>
    ensures spelled { IfOk result (λ bytes.
        bytes.items ≡ fields_spelling E.form.spells (fields_of parameters.now)) }
    ensures refused { IfErr result IsMemory }
{
    let mut bytes = Vec::new(alloc);
    let rounds = (parameters.full_rounds(), parameters.partial_rounds());
    (rounds.0, (rounds.1, parameters.alpha())).serialize(&mut bytes)?;
    write_rows::<F, E>(parameters.ark(), &mut bytes)?;
    write_rows::<F, E>(parameters.mds(), &mut bytes)?;
    (parameters.rate(), parameters.capacity()).serialize(&mut bytes)?;
    Ok(bytes)
}

/// Returns the parameters that the bytes spell.
pub fn parameters_spelled<F: Field, E: ElementForm<F>>(
    alloc: Global,
    bytes: &[u8],
) -> Result<PoseidonConfig<F>, Refused>
    ensures given { CallGivesBy (λ c. c) (parameters_in (formed F.MODULUS F.MODULUS_BIT_SIZE E.form)
        bytes.now) result }
    ensures below { IfOk result (λ c. HaveSpelling (IsBelow E.modulus) (fields_of c)) }
    ensures lawful { IfOk result (λ c. lawful_parameters F.MODULUS_BIT_SIZE c ≡ Ok c) }
{
    let Formed { parameters, .. } = read_whole::<Formed<F, E>>(alloc, bytes)?;
    Ok(parameters)
}

/// Returns canonical bytes of parameters in another form.
pub fn prepared_bytes<F: Field, E: ElementForm<F>>(
    alloc: Global,
    parameters: &[u8],
) -> Result<Vec<u8>, Refused>
    ensures given { CallGivesBy (λ bytes. bytes.items) (prepared_bytes parameters.now
        (formed F.MODULUS F.MODULUS_BIT_SIZE E.form)) result }

    // They are read as the same parameters.
    ensures same { IfOk result (λ bytes.
        parameters_in (formed F.MODULUS F.MODULUS_BIT_SIZE E.form) bytes.items
        ≡ parameters_in (field_size F.MODULUS F.MODULUS_BIT_SIZE) parameters.now) }
{
    let parameters = parameters_spelled::<F, Own>(alloc, parameters)?;
    Ok(formed_bytes::<F, E>(alloc, &parameters)?)
}
