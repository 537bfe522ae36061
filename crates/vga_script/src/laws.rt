//! Laws of the grammar. Each is a contract of a function that does nothing.
ghost use Rattle.std.specs.Prelude.{◌≡◌, ◌≤◌, ℕ, List, length};
ghost use Rattle.vga_bits.specs.declared.fault.Fault.{Fault};
ghost use Rattle.vga_script.specs.Decoding.{IsFault};
ghost use Rattle.vga_script.specs.Item.{ScriptItems, AreItemsOf, expanded, step_limit};
ghost use Rattle.vga_script.specs.Printing.{printed_script};
ghost use Rattle.vga_script.specs.Script.{IsScript, IsTextFault};
ghost use Rattle.vga_script.specs.ScriptBytes.{script_of_steps, script_without_steps};
ghost use Rattle.vga_script.specs.ScriptBytes.{with_steps_appended, HasWritten};
ghost use Rattle.vga_script.specs.Spelled.{SpellsExpanded};
ghost use Rattle.vga_script.specs.Spelling.{script_limit, encoding, Spells};
ghost use Rattle.vga_script.specs.Step.{AreInRange};
ghost use Rattle.vga_script.specs.declared.step.Step.{Step};
ghost use Rattle.vga_script.specs.Text.{SpellsText};

/// No bytes spell two scripts.
pub fn bytes_spell_one_script()
    ensures { (bytes : List ℕ) (first second : ScriptItems) →
        Spells bytes first → Spells bytes second → first ≡ second }
{}

/// No bytes mean two lists of steps.
pub fn bytes_mean_one_list()
    ensures { (bytes : List ℕ) (first second : List Step) →
        SpellsExpanded bytes first → SpellsExpanded bytes second → first ≡ second }
{}

/// The steps that bytes mean have fields in range.
pub fn steps_are_in_range()
    ensures { (bytes : List ℕ) (steps : List Step) → SpellsExpanded bytes steps → AreInRange steps }
{}

/// No script has two spellings in bytes. Each script that means no more steps than it may has one.
pub fn script_has_one_spelling()
    ensures one { (first second : List ℕ) (script : ScriptItems) →
        Spells first script → Spells second script → first ≡ second }
    ensures some { (script : ScriptItems) → AreItemsOf script.version script.items →
        length (expanded script.items) ≤ step_limit → Spells (encoding script) script }
{}

/// No bytes have two faults. Bytes that spell a script have no fault, except that they may be too
/// long.
pub fn bytes_have_one_fault()
    ensures single { (bytes : List ℕ) (first second : Fault) →
        IsFault bytes first → IsFault bytes second → first ≡ second }
    ensures none { (bytes : List ℕ) (script : ScriptItems) (fault : Fault) →
        Spells bytes script → IsFault bytes fault → fault ≡ Fault.TooLong }
{}

/// No text spells two scripts.
pub fn text_spells_one_script()
    ensures { (text : List ℕ) (first second : ScriptItems) →
        SpellsText text first → SpellsText text second → first ≡ second }
{}

/// No text has two faults. A text that spells a script has no fault, except that it may be too
/// long.
pub fn text_has_one_fault()
    ensures single { (text : List ℕ) (first second : Fault) →
        IsTextFault text first → IsTextFault text second → first ≡ second }
    ensures none { (text : List ℕ) (script : ScriptItems) (fault : Fault) →
        SpellsText text script → IsScript script → IsTextFault text fault → fault ≡ Fault.TooLong }
{}

/// The printed text of a script spells it, whatever its length.
pub fn printed_text_spells()
    ensures { (script : ScriptItems) → AreItemsOf script.version script.items →
        length (expanded script.items) ≤ step_limit → SpellsText (printed_script script) script }
{}

/// Steps that are appended one after another make the bytes of their script, as far as there is
/// room. The bytes spell that script, unless the steps are too many.
pub fn appended_steps_spell_script()
    ensures written { (room : ℕ) (steps : List Step) →
        HasWritten (encoding (script_of_steps steps))
        (with_steps_appended (script_without_steps room) steps) }
    ensures room { (room : ℕ) (steps : List Step) → (with_steps_appended (script_without_steps room)
        steps).room ≡ room }
    ensures spells { (steps : List Step) → AreInRange steps →
        length (encoding (script_of_steps steps)) ≤ script_limit →
        Spells (encoding (script_of_steps steps)) (script_of_steps steps) }
{}
