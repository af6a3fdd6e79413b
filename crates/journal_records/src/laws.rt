//! Laws of the definitions. A law is the contract of an empty function, which nothing calls.

ghost use Rattle.std.specs.Prelude.{◌≡◌, ◌++◌, List, ℕ, Ok};
ghost use Rattle.bl_syntax.specs.Codec.{IsCodec};
ghost use Rattle.journal_records.specs.declared.event.Event.{Event};
ghost use Rattle.journal_records.specs.Passes.{erase, event_pass, with_pass};
ghost use Rattle.journal_records.specs.EventRecord.{IsRecordOf};
ghost use Rattle.journal_records.specs.EventSpelling.{event_spelling, IsSpellableEvent, IsReadEvent};
ghost use Rattle.journal_records.specs.EventReading.{event_at, whole_event};

/// Events of pass 0: what is read is spelled so, what is spelled is read, no spelling begins another, and a fault comes
/// exactly if none begins the bytes.
pub fn events_are_a_codec()
    ensures { IsCodec IsReadEvent event_spelling event_at }
{}

/// No pass is written: an event and the one of pass 0 have one spelling. So what is written is read again, up to its
/// pass; no spelling begins another one, and events with one spelling differ in their passes alone.
pub fn passes_are_not_written()
    ensures same { (e : Event) → event_spelling (erase e) ≡ event_spelling e }
    ensures again { (e : Event) → IsSpellableEvent e
        → whole_event (event_spelling e) ≡ Ok (erase e) }
    ensures apart { (e d : Event) (rest others : List ℕ) → IsSpellableEvent e → IsSpellableEvent d
        → event_spelling e ++ rest ≡ event_spelling d ++ others → (erase e ≡ erase d)
        × (rest ≡ others) }
{}

/// Each event that has a spelling has a record; two events with one pass and one payload are one; and what is read of a
/// record's payload is, with its pass, its event.
pub fn records_tell_their_events()
    ensures each { (e : Event) → IsSpellableEvent e → IsRecordOf e (event_pass e) (event_spelling e) }
    ensures one { (e d : Event) (pass : ℕ) (payload : List ℕ) → IsRecordOf e pass payload
        → IsRecordOf d pass payload → e ≡ d }
    ensures again { (e d : Event) (pass : ℕ) (payload : List ℕ) → IsRecordOf e pass payload
        → whole_event payload ≡ Ok d → with_pass pass d ≡ e }
{}
