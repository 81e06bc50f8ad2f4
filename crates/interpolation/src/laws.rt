ghost use Rattle.interpolation.specs.Laws.{IsOneCutting, IsOneText, ExpandAlike};

/// A text is cut into plain pieces and variables in one way only, so that it has one expansion, the same in scopes that
/// are seen alike.
pub fn expansion_laws()
    ensures one_cutting { IsOneCutting }
    ensures one_text { IsOneText }
    ensures alike { ExpandAlike }
{}
