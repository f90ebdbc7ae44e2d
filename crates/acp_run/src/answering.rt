//! What answers lines, one after another.

ghost use Rattle.std.specs.Prelude.{◌≡◌, ℕ, List, None, IfOk, OnErr, ⊤};
ghost use Rattle.acp_run.specs.Language.{Language as OfTokens};
ghost use Rattle.acp_run.specs.Steps.{HasHashes, State as OfTree, LineStep, state_of};

use crate::session::answer::answer;
use crate::session::shell::Shell;
use ark_crh::{CRHScheme, TwoToOneCRHScheme};
use ark_merkle::{LeafParam, MerkleTree, TwoToOneParam, Views};
use std::alloc::{AllocError, Global};

/// What answers lines: all of a session that its reader and its writer ask for.
pub trait Answering {
    // What lines change, as contracts see it.
    ghost State: { Type 0 };

    ghost state: { Self → State };

    // On what replies depend that no call changes.
    ghost Language: { Type 0 };

    ghost language: { Self → Language };

    // The state before a line, the line, the state after it and the reply.
    ghost step: { Language → State → List ℕ → State → List ℕ → Type 0 };

    // What each call keeps.
    ghost is_sound: { Self → Type 0 };

    // What holds behind a call for which memory lacked.
    ghost lacks: { Self → Type 0 };

    /// Returns the reply to a line, without a line feed. The only error is `AllocError`, where memory lacks, and it
    /// leaves the state.
    fn answer(&mut self, alloc: Global, line: &[u8]) -> Result<Vec<u8>, AllocError>
        requires { is_sound self.old }
        ensures step { IfOk result (λ reply.
            step (language self.old) (state self.old) line.now (state self.new) reply.items) }
        ensures same { language self.new ≡ language self.old }
        ensures refused { OnErr result (state self.new ≡ state self.old) }
        ensures lacks { OnErr result (lacks self.new) }
        ensures sound { is_sound self.new };
}

/// A session over hashes with some parameters.
#[derive(Drop)]
pub struct Session<'a, C: Shell> {
    leaf_parameters: &'a LeafParam<C>,
    pair_parameters: &'a TwoToOneParam<C>,
    tree: Option<MerkleTree<C>>,
}

impl<'a, C: Shell> Session<'a, C> {
    /// Returns a session without a tree.
    pub fn new(
        leaf_parameters: &'a LeafParam<C>,
        pair_parameters: &'a TwoToOneParam<C>,
    ) -> Session<'a, C>
        ensures language { ⟦<Self as Answering>⟧.language result ≡ C.language leaf_parameters.now
            pair_parameters.now }
        ensures none { ⟦<Self as Answering>⟧.state result ≡ None }
        ensures sound { ⟦<Self as Answering>⟧.is_sound result }
    {
        Session {
            leaf_parameters,
            pair_parameters,
            tree: None,
        }
    }
}

impl<'a, C: Shell> Answering for Session<'a, C> {
    ghost State = { OfTree };

    ghost state = { λ session. state_of session.tree };

    ghost Language = { OfTokens };

    ghost language = { λ session.
        C.language session.leaf_parameters.now session.pair_parameters.now };

    ghost step = { LineStep };

    ghost is_sound = { λ session. HasHashes C.LeafHash.meaning ⟦<C as Views>⟧.pair
        session.leaf_parameters.now session.pair_parameters.now session.tree };

    // It keeps no trace of that.
    ghost lacks = { λ _. ⊤ };

    fn answer(&mut self, alloc: Global, line: &[u8]) -> Result<Vec<u8>, AllocError> {
        answer(
            alloc,
            self.leaf_parameters,
            self.pair_parameters,
            &mut self.tree,
            line,
        )
    }
}
