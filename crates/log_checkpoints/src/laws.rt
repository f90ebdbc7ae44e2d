//! What is proved of receipts and of quorums. Each function is one theorem: its contract states it, and its body does nothing.

ghost use Rattle.std.specs.Prelude.{◌≡◌, ◌≤◌, ℕ, List, Option};
ghost use Rattle.ark_paths.specs.Pair.{Digest};
ghost use Rattle.log_checkpoints.specs.KeyQuorums.{QuorumsMeet};
ghost use Rattle.log_checkpoints.specs.Receipts.{IsReceipt, IsReceiptOf, IsUnaccepted, LeadsElsewhere};
ghost use Rattle.log_checkpoints.specs.Witnessing.{head_of};
ghost use Rattle.log_checkpoints.specs.declared.receipts.ReceiptFault.{ReceiptFault};
ghost use Rattle.log_checkpoints.specs.declared.receipts.ReceiptFault.TheVariants.{Note};
ghost use Rattle.log_tiles.specs.Ways.{IsBefore};
ghost use Rattle.signed_notes.specs.Checkpoints.{CheckpointParts};
ghost use Rattle.signed_notes.specs.Opening.{IsOpened, Policy};
ghost use Rattle.signed_notes.specs.declared.fault.Fault.TheVariants.{Memory};

/// States that a receipt has one reading: bytes that are written of an index, a path, a note and further bytes or none are read as
/// these and as no others.
pub fn receipts_have_one_reading()
    ensures { (e f : Option (List ℕ)) (i j : ℕ) (p q : List Digest) (m n bytes : List ℕ)
        → IsReceipt e i p m bytes → IsReceipt f j q n bytes
        → (i ≡ j) × (p ≡ q) × (m ≡ n) × (e ≡ f) }
{}

/// States that `verify_receipt` has one verdict on bytes: where they are a receipt of an entry, signed as a policy asks and with a path
/// that is accepted, they are so of one index, size and root, their path leads nowhere else, and nothing but a lack of memory refuses
/// them. So what a keeper writes is accepted.
pub fn receipts_have_one_verdict()
    ensures one { (policy : Policy) (origin bytes entry : List ℕ) (i j m n : ℕ) (p q : Digest)
        → IsReceiptOf policy origin bytes entry i m p → IsReceiptOf policy origin bytes entry j n q
        → (j ≡ i) × (n ≡ m) × (q ≡ p) }
    ensures elsewhere { (policy : Policy) (origin bytes entry : List ℕ) (index size : ℕ)
        (root : Digest) → IsReceiptOf policy origin bytes entry index size root
        → LeadsElsewhere policy origin bytes entry → ⊥ }
    ensures refused { (policy : Policy) (origin bytes entry : List ℕ) (index size : ℕ)
        (root : Digest) (why : ReceiptFault)
        → IsReceiptOf policy origin bytes entry index size root
        → IsUnaccepted policy origin bytes why → why ≡ Note Memory }
{}

/// States that where each quorum of one policy and each of another have the key of an honest witness in common, of two checkpoints
/// that are opened under them the log of the one with fewer entries begins that of the other, or two different pairs with one hash
/// are named. Of a witness no more is supposed than that its key signs what it accepted.
pub fn quorums_of_keys_meet()
    ensures { (origin : List ℕ) (p q : Policy) (first second : List ℕ) (a b : CheckpointParts)
        → QuorumsMeet origin p q → IsOpened p origin first a → IsOpened q origin second b
        → a.size ≤ b.size → IsBefore (head_of a) (head_of b) }
{}
