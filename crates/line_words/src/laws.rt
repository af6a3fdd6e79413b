//! Laws of words. A law is the contract of an empty function, which nothing calls.

ghost use Rattle.std.specs.Prelude.{◌≡◌, ◌≤◌, ◌<◌, ◌^◌, ◌⊎◌, [], ◌∷◌, ◌++◌, ℕ, List, codes, length, not, IsTrue};
ghost use Rattle.std.specs.Fmt.{decimal};
ghost use Rattle.bl_syntax.specs.declared.limits.TheConstants.{MOST_BYTES_AT_ONCE};
ghost use Rattle.bl_syntax.specs.Codec.{AreBytes};
ghost use Rattle.bl_syntax.specs.Names.{is_text};
ghost use Rattle.bl_syntax.specs.declared.terms.NodeId.{NodeId};
ghost use Rattle.line_text.specs.HexWord.{hex_word};
ghost use Rattle.line_text.specs.Words.{has_first, is_word_end, HasNo};
ghost use Rattle.procap.specs.declared.procap.Procap.{Procap};
ghost use Rattle.procap.specs.Procap.{procap_spelling, IsSpellableProcap};
ghost use Rattle.line_words.specs.declared.arguments.Arguments.{Arguments};
ghost use Rattle.line_words.specs.declared.kinds.WordKind.{WordKind};
ghost use Rattle.line_words.specs.declared.procap_word.ProcapWord.TheVariants.{Procap as BySpelling};
ghost use Rattle.line_words.specs.Cutting.{first_cut};
ghost use Rattle.line_words.specs.Kinds.{Sets, IsOutside};
ghost use Rattle.line_words.specs.Grammar.{IsData, IsQuoted};
ghost use Rattle.line_words.specs.Numbers.{IsFile};
ghost use Rattle.line_words.specs.Procaps.{IsProcapWord};
ghost use Rattle.line_words.specs.Reading.{AreWords, IsBadWord};

/// A line is its first word and what stands after it.
pub fn line_is_cut()
    ensures { (line : List ℕ) → line ≡ (first_cut line).word ++ (first_cut line).behind }
{}

/// A word without a space is cut whole if it begins with no quote.
pub fn plain_word_is_cut()
    ensures { (word rest : List ℕ) → HasNo 32 word → IsTrue (not (has_first 34 word))
        → IsTrue (is_word_end 32 rest)
        → first_cut (word ++ rest) ≡ record { word = word; behind = rest } }
{}

/// A text between quotes is cut whole, whatever spaces are in it.
pub fn quoted_text_is_cut()
    ensures { (text rest : List ℕ) → IsTrue (is_text text) → IsTrue (is_word_end 32 rest)
        → first_cut ((34 ∷ (text ++ 34 ∷ [])) ++ rest) ≡ record { word = 34 ∷ (text ++ 34 ∷ []); behind = rest } }
{}

/// A word of a kind writes one thing.
pub fn one_meaning_of_a_word()
    ensures { (kind : WordKind) (word : List ℕ) (before first second : Arguments)
        → Sets kind word before first → Sets kind word before second → first ≡ second }
{}

/// A word is of a kind, or it is of no such kind.
pub fn each_word_is_told()
    ensures { (kind : WordKind) (word : List ℕ) (before : Arguments)
        → ((after : Arguments) × Sets kind word before after) ⊎ IsOutside kind word }
{}

/// Words of given kinds come next, or one of them is the first bad one.
pub fn words_or_a_bad_word()
    ensures { (whole : ℕ) (kinds : List WordKind) (behind : List ℕ) (before : Arguments)
        → ((after : Arguments) × (rest : List ℕ) × AreWords kinds behind before after rest)
        ⊎ ((place : ℕ) × IsBadWord whole kinds behind place) }
{}

/// Words of given kinds write one thing.
pub fn one_meaning_of_words()
    ensures { (kinds : List WordKind) (behind : List ℕ) (before first second : Arguments) (x y : List ℕ)
        → AreWords kinds behind before first x → AreWords kinds behind before second y
        → (first ≡ second) × (x ≡ y) }
{}

/// Among words of given kinds none is bad.
pub fn no_bad_word_among_words()
    ensures { (whole : ℕ) (kinds : List WordKind) (behind : List ℕ) (before after : Arguments) (rest : List ℕ) (place : ℕ)
        → AreWords kinds behind before after rest
        → IsBadWord whole kinds behind place → ⊥ }
{}

/// One word at most is the first bad one.
pub fn one_bad_word()
    ensures { (whole : ℕ) (kinds : List WordKind) (behind : List ℕ) (first second : ℕ)
        → IsBadWord whole kinds behind first → IsBadWord whole kinds behind second
        → first ≡ second }
{}

/// The word that is written for a node is that of the node.
pub fn shown_node_is_read()
    ensures { (node : NodeId) → node.0 < 2 ^ 64 → IsFile (codes "#" ++ decimal node.0) node }
{}

/// The word that is written for a text is that of the text.
pub fn shown_text_is_read()
    ensures { (text : List ℕ) → IsTrue (is_text text)
        → IsQuoted (codes "\"" ++ (text ++ codes "\"")) text }
{}

/// The word that is written for few enough bytes is that of the bytes.
pub fn shown_bytes_are_read()
    ensures { (bytes : List ℕ) → AreBytes bytes → length bytes ≤ MOST_BYTES_AT_ONCE
        → IsData (hex_word bytes) bytes }
{}

/// The word that is shown of a procap gives that procap.
pub fn shown_procap_is_given()
    ensures { (p : Procap) → IsSpellableProcap p → AreBytes (procap_spelling p)
        → IsProcapWord (hex_word (procap_spelling p)) (BySpelling p) }
{}
