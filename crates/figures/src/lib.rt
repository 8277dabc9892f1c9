// Figures shown from the definitions: lists of cases, each with its answer, and one check of a whole list. There is no code here, but
// a function for each list whose contract it is that the figures hold.
#![tactic(auto)]

ghost use Rattle.figures.specs.Arrivals.{ArrivalFiguresHold};
ghost use Rattle.figures.specs.Opening.{OpeningFiguresHold};

// A monitor of the task of each figure answers its arrivals as the figure says.
pub fn arrival_figures_stands()
    ensures { ArrivalFiguresHold }
{}

// Opening on the tasks of each figure at the reading 0, under its rule, answers as the figure says.
pub fn opening_figures_stands()
    ensures { OpeningFiguresHold }
{}
