//! What is proved of notes. Each function is one theorem: its contract states it, and its body does nothing.

ghost use Rattle.std.specs.Prelude.{◌≡◌, ◌∷◌, ℕ, Bool, List, All, Contains, Ok, Some};
ghost use Rattle.base64.specs.GeneralPurpose.{IsBytes};
ghost use Rattle.signed_notes.specs.Checkpoints.{checkpoint_of, read_checkpoint, write_checkpoint, CheckpointParts, IsCheckpoint};
ghost use Rattle.signed_notes.specs.Counting.{lists_key, keys_once, AreOtherKeys};
ghost use Rattle.signed_notes.specs.Keys.{IsNoteKey, key_text, read_key, KeyParts};
ghost use Rattle.signed_notes.specs.LogLists.{log_of_origin, read_logs, ListedParts};
ghost use Rattle.signed_notes.specs.Notes.{AreSignatureBytes, IsNote, note_of, NoteParts};
ghost use Rattle.signed_notes.specs.Reading.{read_note};
ghost use Rattle.signed_notes.specs.Writing.{write_note};

/// States that a note which was written is read as the parts that it was written from.
pub fn notes_are_read_back()
    ensures { (note : NoteParts) → IsNote note → AreSignatureBytes note.signatures
        → read_note (note_of note) ≡ Ok note }
{}

/// States that the bytes of which a note was read are the writing of what was read, so that each note has one spelling.
pub fn notes_have_one_spelling()
    ensures { (bytes : List ℕ) (note : NoteParts) → IsBytes bytes → read_note bytes ≡ Ok note
        → (note_of note ≡ bytes) × IsNote note }
{}

/// States that what may stand in a note is written, and nothing else.
pub fn notes_are_written()
    ensures written { (note : NoteParts) → IsNote note → write_note note ≡ Ok (note_of note) }
    ensures read { (bytes : List ℕ) (note : NoteParts) → IsBytes bytes → read_note bytes ≡ Ok note
        → write_note note ≡ Ok bytes }
{}

/// States that of keys which are counted once no two are one, that each is one of the list, and that each of the list is there.
pub fn keys_count_once()
    ensures apart { (keys : List KeyParts) → AreOtherKeys (keys_once keys) }
    ensures own { (keys : List KeyParts) → All (Contains keys) (keys_once keys) }
    ensures same { (keys : List KeyParts) (key : KeyParts)
        → lists_key (keys_once keys) key ≡ lists_key keys key }
{}

/// States that the text of a key is read as this key, whatever makes of its bytes those that are hashed.
pub fn keys_are_read_back()
    ensures { (is_algorithm : ℕ → Bool) (public : List ℕ → List ℕ) (key : KeyParts)
        → IsNoteKey is_algorithm key → IsBytes (key.algorithm ∷ key.bytes)
        → read_key is_algorithm public (key_text public key) ≡ Ok key }
{}

/// States that a text of which a key was read is the text of this key, so that each key has one.
pub fn keys_have_one_spelling()
    ensures { (is_algorithm : ℕ → Bool) (public : List ℕ → List ℕ) (text : List ℕ) (key : KeyParts)
        → IsBytes text → read_key is_algorithm public text ≡ Ok key
        → (key_text public key ≡ text) × IsNoteKey is_algorithm key }
{}

/// States that what may be a checkpoint is written, and that its text is read as this checkpoint.
pub fn checkpoints_are_read_back()
    ensures written { (c : CheckpointParts) → IsCheckpoint c
        → write_checkpoint c ≡ Ok (checkpoint_of c) }
    ensures read { (c : CheckpointParts) → IsCheckpoint c → IsBytes c.root
        → read_checkpoint (checkpoint_of c) ≡ Ok c }
{}

/// States that a text of which a checkpoint was read is the text of this checkpoint, so that each checkpoint has one.
pub fn checkpoints_have_one_spelling()
    ensures { (text : List ℕ) (c : CheckpointParts) → IsBytes text → read_checkpoint text ≡ Ok c
        → (checkpoint_of c ≡ text) × IsCheckpoint c }
{}

/// States that each log of a list is the first one of its origin, so that no other log of the list is found in its place.
pub fn listed_logs_are_found()
    ensures { (text : List ℕ) (logs : List ListedParts) (log : ListedParts)
        → read_logs text ≡ Ok logs → Contains logs log
        → log_of_origin logs log.origin ≡ Some log }
{}
