// Worked figures that users hold the allocator against, as theorems on its rules.
ghost use Rattle.sub_allocator.specs.Figures.{BufferFigures};

pub fn buffer_figures()
    ensures { BufferFigures }
{}
