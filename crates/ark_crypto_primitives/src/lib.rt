//! Cryptographic primitives that proof systems stand on, under the names of the Rust crate ark-crypto-primitives.
#![tactic(auto)]

mod conflicts;
mod ed25519_scheme;
mod empty_log;
mod jubjub_hashes;
mod log_tree;
mod node_levels;

pub use ark_absorb::{collect_sponge_bytes, collect_sponge_field_elements};
pub use ark_base::error::{Error, Refusal, SerializationError};
pub use ark_base::to_uncompressed_bytes;
pub use ark_sponge::absorb;

/// Canonical bytes.
pub mod serialize {
    pub use ark_base::serialize::{
        Canonical, CanonicalDeserialize, CanonicalItem, CanonicalSerialize, DigestItem, Duplicate,
        Numbered, ReadBack, canonical_bytes,
    };
}

/// Fields.
pub mod ff {
    pub use ark_groups::ff::{
        BabyBear, Field, Fp, Goldilocks, KoalaBear, M7, M13, M61, M257, M65537, Mersenne31,
        Modulus, PrimeField, UniformRand, Valued, Words,
    };
    pub use ark_wide_fields::{
        Bls12_381Fr, Bn254Fr, Fp256, InvertibleField, NoInverses, PallasFp, PrimeModulus, VestaFp,
        WideModulus, batch_inverse, inverse, power, quotient, root_of_quotient, square_root,
    };
}

/// Groups.
pub mod ec {
    pub use ark_groups::ec::{
        Additive, AdditiveGroup, CurveGroup, FixedBaseGroup, FromDigest, PrimeOrderGroup, Residues,
        SWCoordinates, SWPoint, Small, SmallModulus, TECoordinates, TEPoint, ToldByX,
    };
    pub use ark_schemes::from_label::{elements_of_label, group_hash, texts_are_apart};
    pub use baby_jubjub;
    pub use jubjub;
}

/// Digests of bytes.
pub mod digest {
    pub use ark_groups::digest::ByteDigest;
}

/// Pseudorandom functions.
pub mod prf {
    pub use ark_schemes::prf::{PRF, is_same_digest};
    pub use blake2s::{Blake2s, Blake2s256, Blake2sWithParameterBlock};

    /// BLAKE2s (RFC 7693).
    pub mod blake2s {
        pub use ark_schemes::prf::{Blake2s, Blake2s256, Blake2sWithParameterBlock};
    }
}

/// Commitments.
pub mod commitment {
    pub use ark_schemes::commitment::CommitmentScheme;

    /// BLAKE2s of the input and of randomness.
    pub mod blake2s {
        pub use ark_schemes::commitment::blake2s::Commitment;
    }

    /// The Pedersen hash of the input and a multiple of an element, the randomness being the count.
    pub mod pedersen {
        pub use ark_schemes::commitment::pedersen::{
            Commitment, Parameters, PreparedParameters, Randomness, Window, opening_relation_of,
        };
        pub use ark_schemes::from_label::pedersen_commitment_from_label;
    }

    /// Maps of such a commitment.
    pub mod injective_map {
        pub use ark_schemes::commitment::injective_map::{InjectiveMap, PedersenCommCompressor};
    }
}

/// Encryption under a public key.
pub mod encryption {
    pub use ark_signatures::encryption::AsymmetricEncryptionScheme;

    /// ElGamal encryption.
    pub mod elgamal {
        pub use ark_signatures::encryption::elgamal::{
            Ciphertext, ElGamal, Parameters, Plaintext, PublicKey, Randomness, SecretKey,
        };
    }
}

/// Signatures.
pub mod signature {
    pub use ark_signatures::signature::SignatureScheme;
    pub use ed25519;

    /// EdDSA over Baby Jubjub with Poseidon, as circomlib and iden3 have it.
    pub mod eddsa_poseidon {
        pub use baby_jubjub::{EddsaPoseidon, PrivateKey, Signature, SignatureFault, SigningKey};
    }

    /// Ed25519 as a `SignatureScheme`.
    pub mod rfc8032 {
        pub use crate::ed25519_scheme::{Ed25519, NOT_RANDOMIZED};
    }

    /// Schnorr signatures.
    pub mod schnorr {
        pub use ark_signatures::signature::schnorr::{
            Challenges, Parameters, PreparedParameters, PublicKey, Schnorr, SecretKey, Signature,
            bytes_to_bits,
        };
    }
}

/// Shamir's secret sharing.
pub mod secret_shares {
    pub use ark_signatures::secret_shares::{
        NoSecret, NoShare, Share, each_secret_is_possible, one_polynomial_each, recover,
        responses_are_shares, share_at,
    };
}

/// Hashes of one input and of two.
pub mod crh {
    pub use ark_crh::{ArrayHash, CRHScheme, PlainSha256, TwoToOneCRHScheme};
    pub use poseidon2;

    /// Pedersen's and Bowe-Hopwood's hashes over Jubjub as types that name no group.
    ///
    /// Each hashes as the type of `pedersen` or `bowe_hopwood` at `Jubjub` does, by the same definition. A function over a
    /// tree of these is proved in a tenth of the time: what a call hands over for its bounds ends at them.
    pub mod jubjub_hashes {
        pub use crate::jubjub_hashes::{
            BoweHopwoodCRH, BoweHopwoodParameters, BoweHopwoodTwoToOneCRH, PedersenCRH,
            PedersenParameters, PedersenTwoToOneCRH,
        };
    }

    /// SHA-256 (FIPS 180-4).
    pub mod sha256 {
        pub use ark_crh::sha256::Sha256;
    }

    /// What a new sponge gives once it has absorbed the input, and the hashes of circomlib and of Orchard.
    pub mod poseidon {
        pub use ark_poseidon::{
            CRH, CircomCRH, CircomTwoToOneCRH, TwoToOneCRH, circom_hash, constant_length_hash,
        };
    }

    /// Sums of elements at the set bits of an input.
    pub mod pedersen {
        pub use ark_pedersen::{
            CRH, Parameters, TwoToOneCRH, Window, Windows4x64, Windows4x256, Windows63x9,
            bytes_to_bits, couples_bind, hash_bits, relation_of, relations_give_elements,
            relations_tell_elements, windows_fit,
        };
        pub use ark_schemes::from_label::pedersen_from_label;
    }

    /// The first coordinate of sums of elements, each as often as a signed digit of three bits says.
    pub mod bowe_hopwood {
        pub use ark_bowe_hopwood::{
            CHUNK_SIZE, CRH, NodeCRH, NodeParameters, Parameters, TwoToOneCRH, bit_hashes_bind,
            hash_bits, hash_node, hashes_bind, nodes_bind,
        };
        pub use ark_schemes::from_label::bowe_hopwood_from_label;
    }

    /// Maps of Pedersen hashes.
    pub mod injective_map {
        pub use ark_pedersen::injective_map::{
            InjectiveMap, PedersenCRHCompressor, PedersenTwoToOneCRHCompressor, TECompressor,
        };
    }
}

/// Sponges, and what they absorb.
pub mod sponge {
    pub use ark_absorb::{Absorb, AbsorbItem, AbsorbWithLength, push_elements_by_item};
    pub use ark_sponge::{
        CryptographicSponge, DuplexSpongeMode, FieldBasedCryptographicSponge, FieldElementSize,
        SpongeExt,
    };

    /// The duplex sponge over Poseidon's permutation.
    pub mod poseidon {
        pub use ark_sponge::poseidon::{PoseidonConfig, PoseidonSponge, PoseidonSpongeState, SBox};

        /// Ready parameters, those of the Grain generator for any field and width, and their S-box.
        pub mod parameters {
            pub use ark_poseidon_parameters::{Power, bls12_381_fr, bn254_fr};
            pub use poseidon_grain::{
                PoseidonDefaultConfig, PoseidonDefaultConfigEntry, circom_parameters,
                drawn_permutations_tell_states, find_poseidon_ark_and_mds,
                get_default_poseidon_parameters, is_permuting, pasta_parameters,
                permutation_tells_states, poseidon_parameters, powers_tell_elements,
            };
        }
    }
}

/// Merkle trees.
pub mod merkle_tree {
    pub use crate::conflicts::{
        CompressedTree, bowe_hopwood_trees_bind, is_conflict, jubjub_trees_bind, node_trees_bind,
        pedersen_trees_bind, point_trees_bind,
    };
    pub use ark_merkle::hasher::{ConfigHasher, Counting, TreeHasher};
    pub use ark_merkle::{
        Binding, ByteDigestConverter, Config, DigestConverter, IdentityDigestConverter, LeafParam,
        MerkleTree, MultiPath, PairCount, PairHasher, Path, TwoToOneParam, Views, is_tree_size,
    };

    /// Trees whose digests stand in memory of the caller's: the root first, the leaf digests last.
    pub mod kept {
        pub use kept_tree::build::rebuild;
        pub use kept_tree::change::set_leaf;
        pub use kept_tree::check::{holds_tree, is_tree_length};
        pub use kept_tree::join::{are_joinable, join_trees};
        pub use kept_tree::many::rehash_above;
        pub use kept_tree::multi_path::multi_path_bytes;
        pub use kept_tree::path::{kept_root, path_len, write_path};
    }

    /// Trees of a fixed depth whose last leaves are empty, of which one node a level is stored.
    pub mod incremental {
        pub use crate::node_levels::NodeLevels;
        pub use incremental_trees::{
            Completed, EachLevel, IncrementalTree, KeptPath, LevelHasher, TreeRefusal,
            verify_rising,
        };
    }
}

/// Merkle logs of any size (RFC 6962 and RFC 9162), and their signed checkpoints.
pub mod log {
    pub use crate::empty_log::empty_root;
    pub use ark_trees::LogHasher;
    pub use merkle_log::multi_parts::are_multi_indexes;
    pub use merkle_log::{
        Frontier, Log, LogBinding, root_after_insertion, root_after_insertion_bytes,
        verify_consistency, verify_consistency_bytes, verify_inclusion, verify_inclusion_bytes,
        verify_inclusion_digest, verify_multi_inclusion, verify_multi_inclusion_bytes,
        verify_multi_inclusion_digests,
    };
    pub use signed_notes;

    /// LeanIMTs: logs over circomlib's hash of two, whose stored digests lie in the caller's memory.
    pub mod lean_imt {
        pub use circom::{
            CircomNodes, CircomTable, NoElement, NodeRefusal, appended_digests, are_elements,
            change_element, circom_table, inclusion_path, is_element, kept_log_root,
            path_of_elements, root_of_elements,
        };
        pub use merkle_log::kept::Kept;
    }
}

/// Maps from keys of 32 bytes to values of 32 bytes, with proofs of what they have at a key and of what they have not.
pub mod map {
    pub use merkle_map::{
        Change, End, Entry, HIDDEN, KeptMap, KeyProof, MapHasher, MapTree, MapViews, Sha256Map,
        change_from, rows_after, verify_absent, verify_other, verify_transition, verify_value,
    };
    /// Maps in memory of the caller's.
    pub use kept_map;
}

/// Configurations of trees, ready for use.
pub mod trees {
    pub use crate::log_tree::log_tree;
    pub use ark_trees::{ArraySha256, Arrays, LogSha256, Sha256Arrays, Sha256Log, Sha256Strings};
    pub use circom::CircomTree;
}
