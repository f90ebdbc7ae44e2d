//! States that are taken out of sponges and put back.

ghost use Rattle.std.specs.Prelude.{◌≡◌, map, Ok};
ghost use Rattle.ark_base.specs.Outcome.{AnswersBy};
ghost use Rattle.ark_sponge.specs.Permutation.{Parameters};
ghost use Rattle.ark_sponge.specs.Sponge.{Sponge, SpongeState, restored_sponge};

use crate::cryptographic_sponge::SpongeExt;
use crate::mode::{DuplexSpongeMode, mode_index};
use crate::poseidon::config::PoseidonConfig;
use crate::poseidon::permutation::SBox;
use crate::poseidon::sponge::PoseidonSponge;
use ark_base::error::{Error, Refusal};
use ark_base::serialize::Duplicate;
use ark_groups::ff::{Field, Valued};
use std::alloc::Global;
use std::marker::{Model, PhantomData};

/// What a sponge holds besides its parameters. Any list and mode make one: `from_state` is the test.
#[derive(Drop)]
pub struct PoseidonSpongeState<F: Valued> {
    state: Vec<F>,
    mode: DuplexSpongeMode,
}

impl<F: Valued> Model for PoseidonSpongeState<F> {
    ghost use Rattle.std.specs.Prelude.{map};
    ghost use Rattle.ark_sponge.specs.Sponge.{SpongeState};

    ghost Value = { SpongeState };

    ghost view = { λ s. record { state = map F.value s.state.items; mode = s.mode } };
}

impl<F: Field> PoseidonSpongeState<F> {
    /// Returns the state of these elements, the capacity first, that goes on so.
    pub fn new(state: Vec<F>, mode: DuplexSpongeMode) -> PoseidonSpongeState<F>
        ensures { result ≡ record { state = map F.value state.items; mode = mode } }
    {
        PoseidonSpongeState { state, mode }
    }

    /// Returns the elements, the capacity first.
    pub fn state(&self) -> &[F]
        ensures { map F.value result.now ≡ self.now.state }
    {
        &self.state
    }

    /// Returns what the sponge does next.
    pub fn mode(&self) -> DuplexSpongeMode
        ensures { result ≡ self.now.mode }
    {
        self.mode
    }
}

impl<F: Field> Duplicate for PoseidonSpongeState<F> {
    ghost Data = { SpongeState };

    ghost seen = { λ state. state };

    fn duplicate(&self, _alloc: Global) -> Result<PoseidonSpongeState<F>, Error> {
        let state = self.state.clone()?;
        Ok(PoseidonSpongeState {
            state,
            mode: self.mode,
        })
    }
}

impl<F: Field, S: SBox<F>> PoseidonSponge<F, S> {
    /// Returns the sponge with a state and parameters, as `from_state` does, and takes the parameters as they are.
    ///
    /// Errors: those of `from_state`.
    pub fn resumed(
        alloc: Global,
        state: PoseidonSpongeState<F>,
        parameters: PoseidonConfig<F>,
    ) -> Result<Self, Error>
        ensures { AnswersBy (λ sponge. sponge) (restored_sponge state parameters) result }
    {
        let PoseidonSpongeState { state, mode } = state;
        let width = parameters.rate() + parameters.capacity();
        if state.len() != width || mode_index(mode) > parameters.rate() {
            return Err(Error::GenericError(Refusal::StateShape));
        }
        let scratch = vec![in alloc; F::zero(); width]?;
        Ok(PoseidonSponge {
            parameters,
            state,
            scratch,
            mode,
            sbox: PhantomData,
        })
    }
}

impl<F: Field, S: SBox<F>> SpongeExt for PoseidonSponge<F, S> {
    ghost use Rattle.std.specs.Prelude.{◌≡◌};
    ghost use Rattle.std.proofs.Common.{ap};
    ghost use Rattle.ark_sponge.specs.Sponge.{Sponge, restored_sponge};

    type State = PoseidonSpongeState<F>;

    ghost Whole = { Sponge };

    ghost whole = { λ sponge. sponge };

    ghost restored = { restored_sponge };

    ghost is_over = { λ sponge parameters. sponge.parameters ≡ parameters };

    /// Errors: `StateShape` of another length, then `StateShape` of an index past the rate; `OutOfMemory`.
    fn from_state(
        alloc: Global,
        state: PoseidonSpongeState<F>,
        parameters: &PoseidonConfig<F>,
    ) -> Result<PoseidonSponge<F, S>, Error> {
        PoseidonSponge::resumed(alloc, state, parameters.duplicate(alloc)?)
    }

    fn into_state(self) -> PoseidonSpongeState<F>
        ensures state { result ≡ record { state = self.state; mode = self.mode } }
        ensures back { (parameters : Parameters) → self.parameters ≡ parameters
            → restored_sponge result parameters ≡ Ok self }
    {
        let PoseidonSponge { state, mode, .. } = self;
        PoseidonSpongeState { state, mode }
    }

    ghost same_whole = { λ a b same. same };

    ghost same_state = { λ s t same. ap restored_sponge same };
}
