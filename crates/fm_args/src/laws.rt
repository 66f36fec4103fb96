//! Laws of what words ask for.

ghost use Rattle.std.specs.Prelude.{◌≡◌, ◌≤◌, ◌<◌, ◌^◌, ◌∷◌, [], ℕ, List, None, Some, codes, decimal};
ghost use Rattle.fm_args.specs.CommandLine.{telling_of, look_of, parsed_number, plain};
ghost use Rattle.fm_records.specs.Ids.{id_text};
ghost use Rattle.fm_args.specs.Invocation.{Text, ask, check, fleet, follow, follow_with_store, help, pack, page, records, recover, run, version, why, wrong};
ghost use Rattle.fm_args.specs.declared.words.ScriptQuestion.TheVariants.{Graph, Plan, Solve, Winners};

/// A number in range that is written in decimal digits, as the program itself writes numbers, is read as that number.
pub fn law_number()
    ensures { (n least most : ℕ) → least ≤ n → n ≤ most → n < 2 ^ 64 → parsed_number least most (decimal n) ≡ Some n }
{}

/// The definition at some command lines. The program's own name may be any.
pub fn law_examples()
    ensures next { (p : Text) → telling_of (p ∷ codes "graph" ∷ codes "--at" ∷ codes "7" ∷ [])
        ≡ run (ask Graph (Some 7)) }
    ensures own { (p : Text) → telling_of (p ∷ codes "solve" ∷ codes "--at=255" ∷ []) ≡ run (ask Solve (Some 255)) }
    ensures above { (p : Text) → telling_of (p ∷ codes "solve" ∷ codes "--at=256" ∷ []) ≡ wrong }
    ensures left_out { (p : Text) → telling_of (p ∷ codes "winners" ∷ []) ≡ run (ask Winners None) }
    ensures twice { (p : Text) → telling_of (p ∷ codes "graph" ∷ codes "--at=1" ∷ codes "--at=1" ∷ []) ≡ wrong }
    ensures plan { (p : Text) → telling_of (p ∷ codes "plan" ∷ codes "--at=7" ∷ []) ≡ run (ask Plan (Some 7)) }
    ensures check { (p : Text) → telling_of (p ∷ codes "check" ∷ []) ≡ run check }
    ensures no_rounds { (p : Text) → telling_of (p ∷ codes "fleet" ∷ []) ≡ fleet 0 }
    ensures default { (p : Text) → telling_of (p ∷ codes "follow" ∷ []) ≡ follow 100000 }
    ensures renewal { (p : Text) → telling_of (p ∷ codes "follow" ∷ codes "--renew-after=1" ∷ []) ≡ follow 1 }
    ensures below { (p : Text) → telling_of (p ∷ codes "follow" ∷ codes "--renew-after=0" ∷ []) ≡ wrong }
    ensures stored { (p path : Text) → look_of path ≡ plain
        → telling_of (p ∷ codes "follow" ∷ codes "--store" ∷ path ∷ []) ≡ follow_with_store 100000 path [] }
    ensures labelled { (p : Text) → telling_of (p ∷ codes "follow" ∷ codes "--store-label=west" ∷ codes "--store"
        ∷ codes "kept" ∷ codes "--renew-after=1" ∷ []) ≡ follow_with_store 1 (codes "kept") (codes "west") }
    ensures no_store { (p : Text) → telling_of (p ∷ codes "follow" ∷ codes "--store-label=west" ∷ []) ≡ wrong }
    ensures store_twice { (p : Text)
        → telling_of (p ∷ codes "follow" ∷ codes "--store=a" ∷ codes "--store=b" ∷ []) ≡ wrong }
    ensures no_path { (p : Text) → telling_of (p ∷ codes "follow" ∷ codes "--store" ∷ []) ≡ wrong }
    ensures any_file { (p path : Text) → telling_of (p ∷ codes "records" ∷ codes "--" ∷ path ∷ []) ≡ records path }
    ensures recovered { (p path : Text) → look_of path ≡ plain
        → telling_of (p ∷ codes "recover" ∷ path ∷ []) ≡ recover path }
    ensures no_file { (p : Text) → telling_of (p ∷ codes "recover" ∷ []) ≡ wrong }
    ensures any_name { (p name : Text) → telling_of (p ∷ codes "pack" ∷ codes "--" ∷ name ∷ []) ≡ run (pack name) }
    ensures any_task { (p : Text) (task : ℕ) → task < 2 ^ 128
        → telling_of (p ∷ codes "why" ∷ codes "--" ∷ id_text task ∷ []) ≡ run (why task None) }
    ensures at_task { (p : Text) (task : ℕ) → task < 2 ^ 128
        → telling_of (p ∷ codes "why" ∷ codes "--at=7" ∷ codes "--" ∷ id_text task ∷ []) ≡ run (why task (Some 7)) }
    ensures task_at { (p task : Text) → look_of task ≡ plain
        → telling_of (p ∷ codes "why" ∷ task ∷ codes "--at" ∷ codes "7" ∷ [])
        ≡ telling_of (p ∷ codes "why" ∷ codes "--at=7" ∷ codes "--" ∷ task ∷ []) }
    ensures at_twice { (p : Text)
        → telling_of (p ∷ codes "why" ∷ codes "--at=1" ∷ codes "--at=1" ∷ codes "17" ∷ []) ≡ wrong }
    ensures no_task { (p : Text) → telling_of (p ∷ codes "why" ∷ []) ≡ wrong }
    ensures flag { (p : Text) → telling_of (p ∷ codes "graph" ∷ codes "--at" ∷ codes "1" ∷ codes "-h" ∷ []) ≡ help }
    ensures topic { (p : Text) → telling_of (p ∷ codes "help" ∷ codes "solve" ∷ []) ≡ help }
    ensures refusals { (p : Text) → telling_of (p ∷ codes "help" ∷ codes "refusals" ∷ []) ≡ page }
    ensures version { (p : Text) → telling_of (p ∷ codes "--version" ∷ []) ≡ version }
    ensures short_version { (p : Text) → telling_of (p ∷ codes "-V" ∷ []) ≡ version }
    ensures no_version { (p w : Text) → telling_of (p ∷ codes "--version" ∷ w ∷ []) ≡ wrong }
    ensures unknown { (p : Text) → telling_of (p ∷ codes "grapf" ∷ []) ≡ wrong }
    ensures none { (p : Text) → telling_of (p ∷ []) ≡ wrong }
{}
