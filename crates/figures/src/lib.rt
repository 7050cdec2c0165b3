// Worked figures that users hold the allocators against, as theorems on their rules.
#![tactic(auto)]

ghost use Rattle.figures.specs.Figures.{Figures};

use sub_allocator::buffer_figures;

pub fn figures()
    ensures { Figures }
{
    buffer_figures()
}
