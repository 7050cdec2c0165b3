// Worked runs, as theorems: the law of sessions is not about nothing.
ghost use Rattle.session.specs.Figures.{SessionFigures};

pub fn session_figures()
    ensures { SessionFigures }
{}
