ghost use Rattle.facet_leaf.specs.OneLine.{HasOneLineDebug};
ghost use Rattle.facet_leaf.specs.scalars.ScalarModel.{scalar_model};

/// The debug text of a scalar is one line: it has no newline (byte 10).
pub fn debug_texts_are_one_line()
    ensures { HasOneLineDebug scalar_model }
{}
