ghost use Rattle.config_ops.specs.Join.{merged, filled};
ghost use Rattle.config_ops.specs.Laws.{IsFiniteMap, JoinsObjects, MergeReplaces, FillKeeps, NestsNoDeeper};
ghost use Rattle.config_ops.specs.Laws.{ResetsWhole, ResetsNode, ResetsWay, ResetRemoves, RemovalKeepsWay, ResetKeepsOthers, ResetIsBlocked, ResetHasNothing};
ghost use Rattle.config_ops.specs.Laws.{ResetNestsNoDeeper};
ghost use Rattle.config_ops.specs.Laws.{ConfigStays, ConfigIsFilled, ConfigIsObject};

/// What a merge and a fill give key by key, where an object is a finite map, and how deep they nest. It does nothing.
pub fn join_laws()
    ensures finite_map { IsFiniteMap }
    ensures merge { JoinsObjects merged }
    ensures merge_replaces { MergeReplaces }
    ensures merge_nests { NestsNoDeeper merged }
    ensures fill { JoinsObjects filled }
    ensures fill_keeps { FillKeeps }
    ensures fill_nests { NestsNoDeeper filled }
{}

/// What a reset gives case by case, what it leaves, and how deep it nests. It does nothing.
pub fn reset_laws()
    ensures whole { ResetsWhole }
    ensures node { ResetsNode }
    ensures way { ResetsWay }
    ensures removes { ResetRemoves }
    ensures removal_keeps_way { RemovalKeepsWay }
    ensures others { ResetKeepsOthers }
    ensures blocked { ResetIsBlocked }
    ensures nothing { ResetHasNothing }
    ensures nests { ResetNestsNoDeeper }
{}

/// A configuration that was computed has whatever its default has, and stays as it is where no update comes. It does nothing.
pub fn config_stays()
    ensures stays { ConfigStays }
    ensures filled { ConfigIsFilled }
{}

/// What is computed of objects is an object: of a kept configuration that is one or none, a default that is one, any
/// resets, and a merged object or none. It does nothing.
pub fn config_is_object()
    ensures { ConfigIsObject }
{}
