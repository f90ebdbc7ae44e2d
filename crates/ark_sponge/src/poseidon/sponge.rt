//! The sponge.

ghost use Rattle.std.specs.Prelude.{◌≡◌, map, length, Ok};
ghost use Rattle.ark_base.specs.Outcome.{AnswersBy};
ghost use Rattle.ark_sponge.specs.Sponge.{new_sponge, after_absorbing, squeezed_numbers, after_squeezing, AbsorbsAsOne};

mod calls;
mod state;

use crate::mode::{DuplexSpongeMode, absorb_index};
use crate::poseidon::config::PoseidonConfig;
use crate::poseidon::duplex::{absorb_blocks, begin_squeezing, squeeze_blocks, turn};
use crate::poseidon::permutation::SBox;
use ark_base::error::Error;
use ark_groups::ff::{Field, Valued};
pub use state::PoseidonSpongeState;
use std::alloc::Global;
use std::marker::{Model, PhantomData};

/// A duplex sponge over Poseidon's permutation with an S-box.
#[derive(Drop)]
pub struct PoseidonSponge<F: Valued, S> {
    parameters: PoseidonConfig<F>,
    state: Vec<F>,
    scratch: Vec<F>,
    mode: DuplexSpongeMode,
    sbox: PhantomData<S>,
}

impl<F: Valued, S> Model for PoseidonSponge<F, S> {
    ghost use Rattle.std.specs.Prelude.{◌≡◌, ◌+◌, map, vec_len};
    ghost use Rattle.ark_sponge.specs.Sponge.{Sponge};
    ghost use Rattle.ark_sponge.specs.Mode.{IsWithin};

    ghost Value = { Sponge };

    ghost view = { λ s. record {
      parameters = s.parameters;
      state = map F.value s.state.items;
      mode = s.mode;
    } };

    ghost invariant = { λ s. (vec_len s.state ≡ s.parameters.rate + s.parameters.capacity)
        × (vec_len s.scratch ≡ vec_len s.state)
        × IsWithin s.parameters.rate s.mode };
}

impl<F: Field, S: SBox<F>> PoseidonSponge<F, S> {
    /// Returns a sponge that has absorbed nothing. The only error is `OutOfMemory`.
    pub fn over(alloc: Global, parameters: PoseidonConfig<F>) -> Result<Self, Error>
        ensures { AnswersBy (λ sponge. sponge) (Ok (new_sponge parameters)) result }
    {
        let width = parameters.rate() + parameters.capacity();
        let state = vec![in alloc; F::zero(); width]?;
        let scratch = vec![in alloc; F::zero(); width]?;
        Ok(PoseidonSponge {
            parameters,
            state,
            scratch,
            mode: DuplexSpongeMode::Absorbing {
                next_absorb_index: 0,
            },
            sbox: PhantomData,
        })
    }

    /// Returns how the sponge is set up.
    pub fn parameters(&self) -> &PoseidonConfig<F>
        ensures { result.now ≡ self.now.parameters }
    {
        &self.parameters
    }

    /// Returns the state, its capacity first.
    pub fn state(&self) -> &[F]
        ensures { map F.value result.now ≡ self.now.state }
    {
        &self.state
    }

    /// Returns what the sponge does next.
    pub fn mode(&self) -> DuplexSpongeMode
        ensures { result ≡ self.now.mode }
    {
        self.mode
    }

    /// Absorbs elements of the sponge's own field. It allocates nothing.
    pub fn absorb_native(&mut self, elements: &[F])
        ensures sponge { self.new ≡ after_absorbing F.MODULUS S.image self.old
            (map F.value elements.now) }

        // What is absorbed in two calls is absorbed as in one.
        ensures cut { AbsorbsAsOne F.MODULUS S.image self.old (map F.value elements.now) }
    {
        if !elements.is_empty() {
            // The call tells the proof what every sponge's parameters keep.
            let _known = self.parameters.rate();
            let start = absorb_index(self.mode);
            let index = absorb_blocks::<F, S>(
                &self.parameters,
                &mut self.state,
                &mut self.scratch,
                start,
                elements,
            );
            self.mode = DuplexSpongeMode::Absorbing {
                next_absorb_index: index,
            };
        }
    }

    /// Fills a list with the next elements of the sponge's own field. It allocates nothing.
    pub fn squeeze_into(&mut self, out: &mut [F])
        ensures numbers { map F.value out.new
            ≡ squeezed_numbers F.MODULUS S.image self.old (length out.old) }
        ensures sponge { self.new ≡ after_squeezing F.MODULUS S.image self.old (length out.old) }
        ensures length { length out.new ≡ length out.old }
    {
        // As in `absorb_native`.
        let _known = self.parameters.rate();
        let start = begin_squeezing::<F, S>(
            &self.parameters,
            &mut self.state,
            &mut self.scratch,
            self.mode,
        );
        let index = if out.is_empty() {
            turn::<F, S>(&self.parameters, &mut self.state, &mut self.scratch, start)
        } else {
            squeeze_blocks::<F, S>(
                &self.parameters,
                &mut self.state,
                &mut self.scratch,
                start,
                out,
            )
        };
        self.mode = DuplexSpongeMode::Squeezing {
            next_squeeze_index: index,
        };
    }
}
