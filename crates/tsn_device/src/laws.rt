//! Laws of what a crash leaves, as functions whose contracts state them. Their bodies are empty.
ghost use Rattle.std.specs.Prelude.{List, ℕ};
ghost use Rattle.tsn_device.specs.Kept.{LeavesFront, LeavesKept};

/// Whoever relies on the weak reading of a crash alone is right under both.
pub fn front_stands()
    ensures { (kept loose left : List ℕ) → LeavesFront kept loose left → LeavesKept kept left }
{}
