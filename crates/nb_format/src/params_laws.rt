//! Laws over the parameter text. Each is a function that does nothing: its contract is the law.

ghost use Rattle.std.specs.Prelude.{◌≡◌, ◌⊎◌, ℕ, ◌<◌, ◌+◌, ◌≤◌, Ok, Err, Some, List, [], ◌∷◌, length, slice_index};
ghost use Rattle.nb_model.specs.declared.edge.Edge.TheVariants.{Open};
ghost use Rattle.nb_model.specs.declared.params.Params.{Params};
ghost use Rattle.nb_model.specs.Valid.{AreInRange};
ghost use Rattle.nb_format.specs.declared.params_error.ParamsError.{ParamsError};
ghost use Rattle.nb_format.specs.ParamsFaults.{fault_at, IsFirstFault, IsOfLine};
ghost use Rattle.nb_format.specs.ParamsText.{params_of, most_text, lines_of, parameters, values_of, settings_of, edges_of, canonical_text, text_without_edge};

/// The seven canonical lines in order are read back as the same parameters, and without the line of the edge
/// as those of an open box.
pub fn law_canonical_params()
    ensures seven { (params : Params) → AreInRange params → params_of (canonical_text params) ≡ Ok params }
    ensures six { (params : Params) → AreInRange params
        → params_of (text_without_edge params) ≡ Ok (record params { edge = Open }) }
{}

/// In a text that is accepted each of the six parameters that are numbers stands exactly once, with the value
/// that is read. The edge stands once, as it is read, or it doesn't stand and the box is open.
pub fn law_each_parameter_once()
    ensures numbers { (text : List ℕ) (params : Params) → params_of text ≡ Ok params
        → (which : ℕ) → which < length parameters
        → settings_of which (lines_of text) ≡ slice_index (values_of params) which ∷ [] }
    ensures edge { (text : List ℕ) (params : Params) → params_of text ≡ Ok params
        → ((edges_of (lines_of text) ≡ []) × (params.edge ≡ Open))
        ⊎ (edges_of (lines_of text) ≡ params.edge ∷ []) }
{}

/// The parameters of a text are in range.
pub fn law_params_in_range()
    ensures { (text : List ℕ) (params : Params) → params_of text ≡ Ok params → AreInRange params }
{}

/// A refusal of a line tells the first faulty one, by what stands on it and on the lines before it: a text that
/// isn't too long is refused so exactly where that line has this fault and no line before it has any.
pub fn law_first_faulty_line()
    ensures told { (text : List ℕ) (index : ℕ) (error : ParamsError) → length text ≤ most_text
        → IsFirstFault (lines_of text) index error → params_of text ≡ Err error }
    ensures first { (text : List ℕ) (number : ℕ) (error : ParamsError) → params_of text ≡ Err error
        → IsOfLine number error → (index : ℕ) × IsFirstFault (lines_of text) index error }
    ensures number { (lines : List (List ℕ)) (index : ℕ) (error : ParamsError)
        → fault_at lines index ≡ Some error → IsOfLine (index + 1) error }
{}
