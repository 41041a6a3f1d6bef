//! How the classes relate to the history. Each function does nothing; its clauses are the laws.

ghost use Rattle.std.specs.Prelude.{◌≡◌, ℕ, List, []};
ghost use Rattle.arn_ids.specs.declared.config.Config.{Config};
ghost use Rattle.call_types.specs.declared.call.Entry.{Entry};
ghost use Rattle.call_model.specs.Limits.{place};
ghost use Rattle.placement.specs.Places.{opened, place_among};
ghost use Rattle.placement.specs.Meets.{places};

/// The environments meet the history.
pub fn meets()
    // Before any call, every environment is starting with nothing bound.
    ensures opened { (config : Config) → opened config ≡ places config [] }
    // An invocation goes where the definitions place it.
    ensures place { (config : Config) (h : List Entry) (f : ℕ) → place_among (places config h) f ≡ place config h f }
{}
