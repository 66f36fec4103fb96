//! What holds of stores: of the frames in a file, and of the packets that are recovered.
//!
//! Each function does nothing: its contract is the law. In the laws of frames the first record is that of the head.

ghost use Rattle.std.specs.Prelude.{◌≡◌, ◌≢◌, ◌⊎◌, ◌≤◌, ◌<◌, ◌^◌, ◌++◌, ◌∷◌, ℕ, List, [], map, take, length};
ghost use Rattle.sha2.specs.Sha256.{sha256};
ghost use Rattle.fm_records.specs.declared.ops.Op.{Op};
ghost use Rattle.fm_records.specs.Know.{table_of};
ghost use Rattle.fm_records.specs.Sets.{union, HaveSameMembers};
ghost use Rattle.fm_delta.specs.declared.packet.Packet.{Packet};
ghost use Rattle.fm_store.specs.Frames.{length_field, frames};
ghost use Rattle.fm_store.specs.Tails.{AreRecords, AreZeros, IsReadAs, whole_within};
ghost use Rattle.fm_store.specs.Devices.{IsLeftByCrash};
ghost use Rattle.fm_store.specs.Heads.{HeadModel, head_record};
ghost use Rattle.fm_store.specs.Stores.{IsStoreOf, HasStoreOf, IsUnfinished, IsCauseOf, values_of, recovered};
ghost use Rattle.fm_store.specs.declared.frames.Tail.{Tail};
ghost use Rattle.fm_store.specs.declared.frames.Tail.TheVariants.{Damaged};
ghost use Rattle.fm_store.specs.declared.store_fault.StoreFault.{StoreFault};
ghost use Rattle.fm_store.specs.declared.store_fault.StoreFault.TheVariants as faults;

/// Bytes are read in one way.
pub fn law_read_once()
    ensures { (bytes : List ℕ) (rs ss : List (List ℕ)) (e f : Tail) → IsReadAs bytes rs e → IsReadAs bytes ss f
        → (rs ≡ ss) × (e ≡ f) }
{}

/// Wherever records are cut, and whatever zeros are behind the cut, those are read that are whole before it, and the
/// cut is not taken for damage.
pub fn law_cut()
    ensures { (rs ss : List (List ℕ)) (n : ℕ) (zeros : List ℕ) (e : Tail) → AreRecords rs → AreZeros zeros
        → IsReadAs (take n (frames rs) ++ zeros) ss e → (ss ≡ whole_within n rs) × (e ≢ Damaged) }
{}

/// Whatever is behind records, they are read.
pub fn law_front()
    ensures { (rs ss : List (List ℕ)) (rest : List ℕ) (e : Tail) → AreRecords rs
        → IsReadAs (frames rs ++ rest) ss e → (more : List (List ℕ)) × (ss ≡ rs ++ more) }
{}

/// What a crash leaves has all records that were on the disk, then some of the others in their order, and nothing else;
/// and it is not taken for damage.
pub fn law_crash()
    ensures { (rs more ss : List (List ℕ)) (synced : ℕ) (left : List ℕ) (e : Tail) → AreRecords (rs ++ more)
        → length (frames rs) ≤ synced → IsLeftByCrash (frames (rs ++ more)) synced left → IsReadAs left ss e
        → (n : ℕ) × (ss ≡ rs ++ take n more) × (e ≢ Damaged) }
{}

/// A record whose bytes were changed is told as damage, and those before it are read, unless the bytes have the SHA-256
/// of what was written.
pub fn law_damage()
    ensures { (rs ss : List (List ℕ)) (r s rest : List ℕ) (e : Tail) → AreRecords rs → length r < 2 ^ 64
        → length s ≡ length r → sha256 s ≢ sha256 r
        → IsReadAs (frames rs ++ (length_field (length r) ++ (sha256 r ++ (s ++ 255 ∷ rest)))) ss e
        → (ss ≡ rs) × (e ≡ Damaged) }
{}

/// Heads with one record are equal: a store is that of one label and one list of coordinators.
pub fn law_head()
    ensures { (h g : HeadModel) → head_record h ≡ head_record g → h ≡ g }
{}

/// Bytes have one store at most: one head, one list of packets, and one end.
pub fn law_one_store()
    ensures { (h g : HeadModel) (ps qs : List Packet) (m n : ℕ) (bytes : List ℕ) → HasStoreOf h ps m bytes
        → HasStoreOf g qs n bytes → (h ≡ g) × (ps ≡ qs) × (m ≡ n) }
{}

/// A store, with a torn record behind it or none, is found: its bytes are not taken for unfinished, damaged or another
/// cluster's.
pub fn law_found()
    ensures finished { (h : HeadModel) (ps : List Packet) (n : ℕ) (bytes : List ℕ) → HasStoreOf h ps n bytes → IsUnfinished bytes → ⊥ }
    ensures no_fault { (h : HeadModel) (ps : List Packet) (n : ℕ) (bytes : List ℕ) (e : StoreFault)
        → HasStoreOf h ps n bytes → IsCauseOf h e bytes → e ≡ faults.OutOfMemory }
{}

/// After a crash the store that is left has all packets that were on the disk, and then some of the others in their
/// order.
pub fn law_restart()
    ensures { (h : HeadModel) (ps all qs : List Packet) (m synced : ℕ) (old content left : List ℕ)
        → IsStoreOf h ps old → length old ≤ synced → IsStoreOf h all content → old ≡ take (length old) content
        → IsLeftByCrash content synced left → HasStoreOf h qs m left
        → (more : List Packet) × (n : ℕ) × (all ≡ ps ++ more) × (qs ≡ ps ++ take n more) }
{}

/// Stores whose packets stand for the same operations are recovered to one knowledge: in whatever order and grouping
/// they were added, and how often.
pub fn law_any_order()
    ensures { (number : ℕ) (ps qs : List Packet) (Ss Ts : List (List Op)) → values_of number ps ≡ map table_of Ss
        → values_of number qs ≡ map table_of Ts → HaveSameMembers (union Ss) (union Ts)
        → recovered number ps ≡ recovered number qs }
{}

/// A store with one packet of all that was recovered of a coordinator is recovered to the same.
pub fn law_compacted()
    ensures { (number : ℕ) (ps : List Packet) (p : Packet) (Ss : List (List Op)) → values_of number ps ≡ map table_of Ss
        → p.sender ≡ number → p.value ≡ recovered number ps → recovered number (p ∷ []) ≡ recovered number ps }
{}
