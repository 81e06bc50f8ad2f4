// A law over what is gathered.
ghost use Rattle.std.specs.Prelude.{◌≡◌, List, ℕ, map};
ghost use Rattle.nuc_base.specs.declared.platform.Platform.{Platform};
ghost use Rattle.recipe_reader.specs.declared.candidate.Candidate.{Candidate};
ghost use Rattle.library_core.specs.Sources.{Source, source};
ghost use Rattle.library_core.specs.Gathered.{AreGathered};

/// Candidates that are gathered from what a device has and from the same recipes are one list, by name, version and
/// bytes.
pub fn gathered_are_one()
    ensures { (mine : List Source) → (p : Platform) → (recipes : List (List ℕ)) → (cs : List Candidate) → (ds : List Candidate) →
        AreGathered mine p recipes cs → AreGathered mine p recipes ds → map source cs ≡ map source ds }
{}
