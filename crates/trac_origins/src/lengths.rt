//! The law of origins by lengths: no origin merely finds an equal byte.
ghost use Rattle.std.specs.FinMap as finite;
ghost use Rattle.std.specs.List.{flat_map};
ghost use Rattle.std.specs.Prelude.{◌≡◌, ◌<◌, ◌≤◌, ◌+◌, ◌-◌, ◌++◌, [], bytes_eq, drop, false, get_or, length, List};
ghost use Rattle.std.specs.Prelude.{min, None, Ok, slice_get, Some, take, true, ℕ};
ghost use Rattle.trac_origins.specs.Accounts.{makes_idle};
ghost use Rattle.trac_origins.specs.Following.{followed};
ghost use Rattle.trac_origins.specs.Lengths.{IsCallOf, after_carried, before_moved, current_text, cut_from};
ghost use Rattle.trac_origins.specs.Lengths.{first_moved, gives_bits, in_current, is_of_text, is_outside, is_silent};
ghost use Rattle.trac_origins.specs.Lengths.{is_stored, may_put, moves_bytes, number_chosen, number_of_default};
ghost use Rattle.trac_origins.specs.Lengths.{of_argument, of_form, printed_at, value_at};
ghost use Rattle.trac_origins.specs.Lists.{all_kept, frames_kept};
ghost use Rattle.trac_origins.specs.Moving.{deleted_from, ended_from};
ghost use Rattle.trac_origins.specs.Places.{Carried, InActive, InArgument, InForm, InHeld, InOutput, Made, Place, Read};
ghost use Rattle.trac_origins.specs.Places.{found_at, held_form, items_of};
ghost use Rattle.trac_origins.specs.Stepping.{origin};
ghost use Rattle.trac_rules.specs.Blocks.{block_at, named_block_number};
ghost use Rattle.trac_rules.specs.Effect.{Effect, argument};
ghost use Rattle.trac_rules.specs.Filling.{all_filled, text_numbered};
ghost use Rattle.trac_rules.specs.Form.{Form, all_items, extent};
ghost use Rattle.trac_rules.specs.Handling.{named_form, piece_read};
ghost use Rattle.trac_rules.specs.Listing.{names_of};
ghost use Rattle.trac_rules.specs.Number.{is_greater, numeral_of, prefix_of};
ghost use Rattle.trac_rules.specs.Performing.{primitive_of, trace_line};
ghost use Rattle.trac_rules.specs.Pieces.{Piece, bytes_in};
ghost use Rattle.trac_rules.specs.PlainRuns.{moved_on, on_the_way};
ghost use Rattle.trac_rules.specs.Scanning.{Call, Calls, Moves, front_of, scan};
ghost use Rattle.trac_rules.specs.Segmenting.{segmented};
ghost use Rattle.trac_rules.specs.Showing.{shown_item, shown_items};
ghost use Rattle.trac_rules.specs.State.{Environment, State, storage_of};
ghost use Rattle.trac_rules.specs.Stepping.{step};
ghost use Rattle.trac_rules.specs.Trails.{AreSteps};
ghost use Rattle.trac_rules.specs.declared.item.Item.{Item};
ghost use Rattle.trac_rules.specs.declared.item.Item.TheVariants.{Byte, Gap};
ghost use Rattle.trac_rules.specs.declared.primitive.BlockAction.TheVariants.{FetchBlock, StoreBlock};
ghost use Rattle.trac_rules.specs.declared.primitive.Computation.{Computation};
ghost use Rattle.trac_rules.specs.declared.primitive.Computation.TheVariants.{Calculate, Equal, Greater};
ghost use Rattle.trac_rules.specs.declared.primitive.FormAction.TheVariants as action;
ghost use Rattle.trac_rules.specs.declared.primitive.FormReading.{FormReading};
ghost use Rattle.trac_rules.specs.declared.primitive.Operation.{Operation};
ghost use Rattle.trac_rules.specs.declared.primitive.Primitive.{Primitive};
ghost use Rattle.trac_rules.specs.declared.primitive.Primitive.TheVariants.{Compute, Handle, HandleBlock, PrintString};
ghost use Rattle.trac_rules.specs.declared.primitive.Primitive.TheVariants.{ReadByte, ReadString};

/// If a rule of scanning moves on, numbers alone tell the origins. What is left of the active text is its end. What
/// stood elsewhere stands where it stood. What is new in the current text stood at the front of the active text, after
/// the `(` if that protects it. With nothing left to be scanned, the new active text is made, and output, forms and
/// blocks stay.
pub fn scanning_is_told_by_lengths()
    ensures rest { (environment : Environment) (s t : State) (i : ℕ) →
        scan s ≡ Moves t → makes_idle (front_of s.active) ≡ false → i < length t.active →
        origin environment s (InActive i) ≡ Carried (InActive (length s.active - length t.active + i)) }
    ensures stays { (environment : Environment) (s t : State) (place : Place) (item : Item) →
        scan s ≡ Moves t → makes_idle (front_of s.active) ≡ false →
        is_outside place ≡ true → found_at s place ≡ Some item → origin environment s place ≡ Carried place }
    ensures moved { (environment : Environment) (s t : State) (i : ℕ) →
        scan s ≡ Moves t → moves_bytes (front_of s.active) ≡ true →
        length (current_text s.frames s) + i < length (current_text t.frames t) →
        origin environment s (in_current s.frames (length (current_text s.frames s) + i))
        ≡ Carried (InActive (first_moved (front_of s.active) + i)) }
    ensures idle { (environment : Environment) (s t : State) (i : ℕ) → scan s ≡ Moves t →
        makes_idle (front_of s.active) ≡ true → origin environment s (InActive i) ≡ Made }
    ensures idle_stays { (environment : Environment) (s t : State) (place : Place) (item : Item) →
        scan s ≡ Moves t → makes_idle (front_of s.active) ≡ true →
        is_stored place ≡ true → found_at s place ≡ Some item → origin environment s place ≡ Carried place }
{}

/// Around a call too: what is left of the active text, after the value, if that is scanned, and without the `)`, is its
/// end. What stands in the output and in the texts without the function stands where it stood, and so do the items of
/// each form that the call does not put, and of all that blocks hold. The bytes of the arguments are said to be just
/// these, one after another.
pub fn calls_are_told_by_lengths()
    ensures rest { (environment : Environment) (s t : State) (call : Call) (i : ℕ) →
        step environment s ≡ Ok t → scan s ≡ Calls call → i + 1 < length s.active →
        origin environment s (InActive (length t.active - (length s.active - 1) + i)) ≡ Carried (InActive (i + 1)) }
    ensures stays { (environment : Environment) (s t : State) (call : Call) (place : Place) (item : Item) →
        step environment s ≡ Ok t → scan s ≡ Calls call →
        is_of_text place ≡ true → found_at call.state place ≡ Some item → origin environment s place ≡ Carried place }
    ensures forms { (environment : Environment) (s t : State) (call : Call) (name : List ℕ) (i : ℕ) (item : Item) →
        step environment s ≡ Ok t → scan s ≡ Calls call →
        may_put (primitive_of (argument 0 call.arguments)) (argument 1 call.arguments) name ≡ false →
        found_at call.state (InForm name i) ≡ Some item →
        origin environment s (InForm name i) ≡ Carried (InForm name i) }
    ensures held { (environment : Environment) (s t : State) (call : Call)
        (number : ℕ) (name : List ℕ) (i : ℕ) (item : Item) → step environment s ≡ Ok t → scan s ≡ Calls call →
        found_at call.state (InHeld number name i) ≡ Some item →
        origin environment s (InHeld number name i) ≡ Carried (InHeld number name i) }
    ensures arguments { (s : State) (call : Call) (k i : ℕ) →
        scan s ≡ Calls call → i < length (argument k call.arguments) →
        get_or (get_or (ended_from (frames_kept s.frames) (deleted_from 1 (all_kept s))).arguments k []) i Made
        ≡ Carried (InArgument (length call.state.frames) k i) }
{}

/// Over as many steps as bytes go one by one to the current text, numbers alone tell all origins at once. What is
/// left of the active text stood so many bytes further on, what is new in the current text stood at its front, and
/// all else stands where it stood.
#[tactic(auto, using(crate::proofs::Moved::run_followed))]
pub fn runs_are_told_by_lengths()
    ensures { (environment : Environment) (s : State) (earlier : List State) (n : ℕ) (place : Place) (item : Item) →
        AreSteps environment (on_the_way n s ++ earlier) (moved_on n s) → n ≤ length s.active →
        found_at (moved_on n s) place ≡ Some item → followed environment (on_the_way n s ++ earlier) place
        ≡ after_carried n (followed environment earlier (before_moved n s place)) }
{}

/// A form of which something stands after a step that puts no form under its name holds the items that it held,
/// each carried from its own place: after each rule of scanning, and after a call. What stands in a block that
/// was there before stood there too.
pub fn forms_hold_what_they_held()
    ensures moves { (environment : Environment) (s t : State) (name : List ℕ) (i : ℕ) (item : Item) →
        step environment s ≡ Ok t → scan s ≡ Moves t → found_at t (InForm name i) ≡ Some item →
        (items_of (finite.get t.forms name) ≡ items_of (finite.get s.forms name))
        × (origin environment s (InForm name i) ≡ Carried (InForm name i)) }
    ensures calls { (environment : Environment) (s t : State) (call : Call) (name : List ℕ) (i : ℕ) (item : Item) →
        step environment s ≡ Ok t → scan s ≡ Calls call →
        may_put (primitive_of (argument 0 call.arguments)) (argument 1 call.arguments) name ≡ false →
        found_at t (InForm name i) ≡ Some item →
        (items_of (finite.get t.forms name) ≡ items_of (finite.get s.forms name))
        × (origin environment s (InForm name i) ≡ Carried (InForm name i)) }
    ensures moves_held { (environment : Environment) (s t : State) (number : ℕ) (name : List ℕ) (i : ℕ) (item : Item) →
        step environment s ≡ Ok t → scan s ≡ Moves t → found_at t (InHeld number name i) ≡ Some item →
        origin environment s (InHeld number name i) ≡ Carried (InHeld number name i) }
    ensures calls_held { (environment : Environment) (s t : State) (call : Call)
        (number : ℕ) (name : List ℕ) (i : ℕ) (item : Item) → step environment s ≡ Ok t → scan s ≡ Calls call →
        number < length s.blocks → found_at t (InHeld number name i) ≡ Some item →
        origin environment s (InHeld number name i) ≡ Carried (InHeld number name i) }
{}

/// What a call gives, byte by byte. A text of the input is read from the position on. A decision gives the
/// argument that it chooses, and a default argument is carried. After the prefix of the first number all digits
/// are made, and so are all bits.
pub fn values_are_told_by_lengths()
    ensures string { (environment : Environment) (s : State) (call : Call) (e : Effect) (i : ℕ) →
        IsCallOf environment s call ReadString e → i < length e.value →
        origin environment s (value_at call.kind e.forced call.state i) ≡ Read (call.state.position + i) }
    ensures byte { (environment : Environment) (s : State) (call : Call) (e : Effect) (i : ℕ) →
        IsCallOf environment s call ReadByte e → i < length e.value →
        origin environment s (value_at call.kind e.forced call.state i) ≡ Read (call.state.position + i) }
    ensures equal { (environment : Environment) (s : State) (call : Call) (e : Effect) (i : ℕ) →
        IsCallOf environment s call (Compute Equal) e → i < length e.value →
        origin environment s (value_at call.kind e.forced call.state i)
        ≡ of_argument call (number_chosen (bytes_eq (argument 1 call.arguments) (argument 2 call.arguments))) i }
    ensures greater { (environment : Environment) (s : State) (call : Call) (e : Effect) (i : ℕ) →
        IsCallOf environment s call (Compute Greater) e → i < length e.value →
        origin environment s (value_at call.kind e.forced call.state i) ≡ of_argument call (number_chosen
        (is_greater (numeral_of (argument 1 call.arguments)) (numeral_of (argument 2 call.arguments)))) i }
    ensures default { (environment : Environment) (s : State) (call : Call) (operation : Operation) (e : Effect)
        (i : ℕ) → IsCallOf environment s call (Compute (Calculate operation)) e → e.forced ≡ true → i < length e.value →
        origin environment s (value_at call.kind e.forced call.state i) ≡ of_argument call 3 i }
    ensures prefix { (environment : Environment) (s : State) (call : Call)
        (operation : Operation) (e : Effect) (i : ℕ) → IsCallOf environment s call (Compute (Calculate operation)) e →
        e.forced ≡ false → i < length e.value → i < length (prefix_of (argument 1 call.arguments)) →
        origin environment s (value_at call.kind e.forced call.state i) ≡ of_argument call 1 i }
    ensures digits { (environment : Environment) (s : State) (call : Call)
        (operation : Operation) (e : Effect) (i : ℕ) → IsCallOf environment s call (Compute (Calculate operation)) e →
        e.forced ≡ false → i < length e.value → length (prefix_of (argument 1 call.arguments)) ≤ i →
        origin environment s (value_at call.kind e.forced call.state i) ≡ Made }
    ensures bits { (environment : Environment) (s : State) (call : Call) (computation : Computation)
        (e : Effect) (i : ℕ) → gives_bits computation ≡ true → IsCallOf environment s call (Compute computation) e →
        i < length e.value → origin environment s (value_at call.kind e.forced call.state i) ≡ Made }
{}

/// What is read of forms. The byte that an item of a form gives is that item's: in `cl` it stands after what the
/// items between the pointer and it give, and in a reading after the bytes between the lesser of the old and the
/// new pointer and it. The byte that a gap gives in `cl` is that of the call's text. Each name that `ln` lists is
/// made, after the text of the call.
pub fn readings_are_told_by_lengths()
    ensures called { (environment : Environment) (s : State) (call : Call) (e : Effect) (form : Form) (m b : ℕ) →
        IsCallOf environment s call (Handle action.Call) e →
        named_form call.arguments (storage_of call.state) ≡ Some form → slice_get form.after m ≡ Some (Byte b) →
        origin environment
        s (value_at call.kind e.forced call.state (length (all_filled (drop 2 call.arguments) (take m form.after))))
        ≡ of_form call (length form.before + m) }
    ensures filled { (environment : Environment) (s : State) (call : Call) (e : Effect) (form : Form) (m k w j : ℕ) →
        IsCallOf environment s call (Handle action.Call) e →
        named_form call.arguments (storage_of call.state) ≡ Some form → slice_get form.after m ≡ Some (Gap k w) →
        j < length (text_numbered k (drop 2 call.arguments)) → origin environment
        s (value_at call.kind e.forced call.state (length (all_filled (drop 2 call.arguments) (take m form.after)) + j))
        ≡ of_argument call (k + 1) j }
    ensures piece { (environment : Environment) (s : State) (call : Call) (reading : FormReading) (e : Effect)
        (form : Form) (piece : Piece) (m b : ℕ) → IsCallOf environment s call (Handle (action.Read reading)) e →
        named_form call.arguments (storage_of call.state) ≡ Some form →
        piece_read reading environment.width call.arguments form ≡ Some piece →
        slice_get (drop (min (length form.before) piece.place) (all_items form)) m ≡ Some (Byte b) →
        length (bytes_in (take m (drop (min (length form.before) piece.place) (all_items form)))) < length e.value →
        origin environment s (value_at call.kind
        e.forced call.state (length (bytes_in (take m (drop (min (length form.before) piece.place) (all_items form))))))
        ≡ of_form call (min (length form.before) piece.place + m) }
    ensures other { (environment : Environment) (s : State) (call : Call) (reading : FormReading)
        (e : Effect) (form : Form) (i : ℕ) → IsCallOf environment s call (Handle (action.Read reading)) e →
        named_form call.arguments (storage_of call.state) ≡ Some form →
        piece_read reading environment.width call.arguments form ≡ None → i < length e.value →
        origin environment s (value_at call.kind e.forced call.state i)
        ≡ of_argument call (number_of_default reading) i }
    ensures listed { (environment : Environment) (s : State) (call : Call) (e : Effect)
        (n : ℕ) (name : List ℕ) (i : ℕ) → IsCallOf environment s call (Handle action.ListNames) e →
        slice_get (names_of call.state.forms) n ≡ Some name → i < length (argument 1 call.arguments) →
        origin environment s (value_at call.kind e.forced
        call.state (length (flat_map (λ q. argument 1 call.arguments ++ q) (take n (names_of call.state.forms))) + i))
        ≡ of_argument call 1 i }
    ensures name { (environment : Environment) (s : State) (call : Call) (e : Effect) (n : ℕ) (name : List ℕ) (i : ℕ) →
        IsCallOf environment s call (Handle action.ListNames) e → slice_get (names_of call.state.forms) n ≡ Some name →
        i < length name → origin environment s (value_at call.kind e.forced call.state
        (length (flat_map (λ q. argument 1 call.arguments ++ q) (take n (names_of call.state.forms)))
        + (length (argument 1 call.arguments) + i))) ≡ Made }
{}

/// What a call prints. The line of the trace is made, whatever it shows. `ps` prints its argument, and `pf` the bytes
/// of a form, each after what the items before it show; its marks are made. If a call prints nothing of its own, as
/// `pf` of no form, all that is new is made.
pub fn prints_are_told_by_lengths()
    ensures traced { (environment : Environment) (s : State) (call : Call) (primitive : Primitive) (e : Effect) (i : ℕ)
        → IsCallOf environment s call primitive e → i < length (trace_line call.state.trace call.kind call.arguments) →
        origin environment s (InOutput (length call.state.output + i)) ≡ Made }
    ensures silent { (environment : Environment) (s : State)
        (call : Call) (primitive : Primitive) (e : Effect) (i : ℕ) → IsCallOf environment s call primitive e →
        is_silent primitive ≡ true → origin environment s (InOutput (length call.state.output + i)) ≡ Made }
    ensures unshown { (environment : Environment) (s : State) (call : Call) (e : Effect) (i : ℕ) →
        IsCallOf environment s call (Handle action.PrintForm) e →
        named_form call.arguments (storage_of call.state) ≡ None →
        origin environment s (InOutput (length call.state.output + i)) ≡ Made }
    ensures text { (environment : Environment) (s : State) (call : Call) (e : Effect) (i : ℕ) →
        IsCallOf environment s call PrintString e →
        i < length (argument 1 call.arguments) → origin environment s (printed_at call i) ≡ of_argument call 1 i }
    ensures before { (environment : Environment) (s : State) (call : Call) (e : Effect) (form : Form) (m b : ℕ) →
        IsCallOf environment s call (Handle action.PrintForm) e →
        named_form call.arguments (storage_of call.state) ≡ Some form → slice_get form.before m ≡ Some (Byte b) →
        origin environment s (printed_at call (length (shown_items (take m form.before)))) ≡ of_form call m }
    ensures after { (environment : Environment) (s : State) (call : Call) (e : Effect) (form : Form) (m b : ℕ) →
        IsCallOf environment s call (Handle action.PrintForm) e →
        named_form call.arguments (storage_of call.state) ≡ Some form → slice_get form.after m ≡ Some (Byte b) →
        origin environment
        s (printed_at call (length (shown_items form.before) + (3 + length (shown_items (take m form.after)))))
        ≡ of_form call (length form.before + m) }
    ensures pointer { (environment : Environment) (s : State) (call : Call) (e : Effect) (form : Form) (j : ℕ) →
        IsCallOf environment s call (Handle action.PrintForm) e →
        named_form call.arguments (storage_of call.state) ≡ Some form → j < 3 →
        origin environment s (printed_at call (length (shown_items form.before) + j)) ≡ Made }
    ensures mark_before { (environment : Environment) (s : State) (call : Call) (e : Effect)
        (form : Form) (m k w j : ℕ) → IsCallOf environment s call (Handle action.PrintForm) e →
        named_form call.arguments (storage_of call.state) ≡ Some form →
        slice_get form.before m ≡ Some (Gap k w) → j < length (shown_item (Gap k w)) →
        origin environment s (printed_at call (length (shown_items (take m form.before)) + j)) ≡ Made }
    ensures mark_after { (environment : Environment) (s : State) (call : Call)
        (e : Effect) (form : Form) (m k w j : ℕ) → IsCallOf environment s call (Handle action.PrintForm) e →
        named_form call.arguments (storage_of call.state) ≡ Some form → slice_get form.after m ≡ Some (Gap k w) →
        j < length (shown_item (Gap k w)) → origin environment s (printed_at call
        (length (shown_items form.before) + (3 + (length (shown_items (take m form.after)) + j)))) ≡ Made }
{}

/// What a call puts into forms and blocks. `ds` puts its argument. An item that `ss` leaves stood where as many bytes
/// stood before it, gaps counted by their width; a gap that stands there over a byte is made, and all else is carried.
/// `sb` makes the form of its number, and the forms of the new block stood under their names. `fb` brings each form of
/// the block from there, and leaves the others.
pub fn puts_are_told_by_lengths()
    ensures defined { (environment : Environment) (s : State) (call : Call) (e : Effect) (i : ℕ) →
        IsCallOf environment s call (Handle action.Define) e → i < length (argument 2 call.arguments) →
        origin environment s (InForm (argument 1 call.arguments) i) ≡ of_argument call 2 i }
    ensures segmented { (environment : Environment) (s : State) (call : Call)
        (e : Effect) (form : Form) (m : ℕ) (item : Item) → IsCallOf environment s call (Handle action.Segment) e →
        named_form call.arguments (storage_of call.state) ≡ Some form →
        slice_get (all_items (segmented (drop 2 call.arguments) form)) m ≡ Some item →
        (number : ℕ) × (was : Item) × (slice_get (all_items form) number ≡ Some was)
        × (extent (take m (all_items (segmented (drop 2 call.arguments) form))) ≡ extent (take number (all_items form)))
        × (origin environment s (InForm (argument 1 call.arguments) m) ≡ cut_from item was (of_form call number)) }
    ensures address { (environment : Environment) (s : State) (call : Call) (e : Effect) (i : ℕ) →
        IsCallOf environment s call (HandleBlock StoreBlock) e →
        origin environment s (InForm (argument 1 call.arguments) i) ≡ Made }
    ensures stored { (environment : Environment) (s : State) (call : Call)
        (e : Effect) (name : List ℕ) (i : ℕ) (item : Item) → IsCallOf environment s call (HandleBlock StoreBlock) e →
        found_at call.state (InForm name i) ≡ Some item →
        origin environment s (InHeld (length call.state.blocks) name i) ≡ Carried (InForm name i) }
    ensures fetched { (environment : Environment) (s : State) (call : Call) (e : Effect) (number : ℕ)
        (name : List ℕ) (i : ℕ) (item : Item) → IsCallOf environment s call (HandleBlock FetchBlock) e →
        named_block_number call.arguments (storage_of call.state) ≡ Some number →
        found_at call.state (InHeld number name i) ≡ Some item →
        origin environment s (InForm name i) ≡ Carried (InHeld number name i) }
    ensures unfetched { (environment : Environment) (s : State) (call : Call) (e : Effect)
        (number : ℕ) (name : List ℕ) (i : ℕ) (item : Item) → IsCallOf environment s call (HandleBlock FetchBlock) e →
        named_block_number call.arguments (storage_of call.state) ≡ Some number →
        held_form name (block_at number call.state.blocks) ≡ None → found_at call.state (InForm name i) ≡ Some item →
        origin environment s (InForm name i) ≡ Carried (InForm name i) }
    ensures unaddressed { (environment : Environment) (s : State) (call : Call) (e : Effect)
        (name : List ℕ) (i : ℕ) (item : Item) → IsCallOf environment s call (HandleBlock FetchBlock) e →
        named_block_number call.arguments (storage_of call.state) ≡ None →
        found_at call.state (InForm name i) ≡ Some item →
        origin environment s (InForm name i) ≡ Carried (InForm name i) }
{}
