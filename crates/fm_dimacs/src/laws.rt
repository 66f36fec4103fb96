//! The laws of texts of networks. Each function does nothing: its contract is the law.

ghost use Rattle.std.specs.Prelude.{◌≡◌, ◌<◌, ◌^◌, ℕ, List, length};
ghost use Rattle.fm_net.specs.Net.{CanBeNet, Net};
ghost use Rattle.fm_dimacs.specs.Syntax.{BreaksAt};
ghost use Rattle.fm_dimacs.specs.Text.{dump_text};

/// Networks that can be are the same if their texts are, of fewer than 2^64 bytes.
pub fn law_one_text()
    ensures { (m n : Net) → CanBeNet m → CanBeNet n → length (dump_text m) < 2 ^ 64 → dump_text m ≡ dump_text n
        → m ≡ n }
{}

/// A text of fewer than 2^64 bytes has at most one first line that breaks a rule, and is no network's if it has one.
pub fn law_broken()
    ensures one { (text : List ℕ) (j k : ℕ) → length text < 2 ^ 64 → BreaksAt text j → BreaksAt text k → j ≡ k }
    ensures no_network { (text : List ℕ) (line : ℕ) (net : Net) → length text < 2 ^ 64 → BreaksAt text line
        → CanBeNet net → ¬ (text ≡ dump_text net) }
{}
