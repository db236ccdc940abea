//! Laws of the texts: which rows there are, and that each is printed once.

ghost use Rattle.std.specs.Prelude.{◌≡◌, ◌↔◌, List, [], ◌∷◌, All, Contains, codes, map};
ghost use Rattle.std.specs.List.{filter, flat_map};
ghost use Rattle.std.specs.List.Sorted.{IsStrictlySortedBy};
ghost use Rattle.std.specs.Ordering.{eq_by_cmp, nat_cmp};
ghost use Rattle.csv.specs.Reading.{default_config, records};
ghost use Rattle.rpki_basics.specs.Moment.{Moment};
ghost use Rattle.rpki_relying_party.specs.Orders.{origin_order, provider_order};
ghost use Rattle.rpki_payloads.specs.Formats.{PrintsCustomers, PrintsOrigins, PrintsProviders};
ghost use Rattle.rpki_payloads.specs.Formats.Bird.{is_v4, is_v6, route, table_v4, table_v6};
ghost use Rattle.rpki_payloads.specs.Formats.Groups.{IsOfOneCustomer, customer_of, groups};
ghost use Rattle.rpki_payloads.specs.Formats.Json.{HasSmall, IsTextOf, aspa_item, client_data};
ghost use Rattle.rpki_payloads.specs.Formats.Json.{client_text, json_data, json_text, roa_item};
ghost use Rattle.rpki_payloads.specs.Formats.Lines.{aspa_line, long_origin, long_provider};
ghost use Rattle.rpki_payloads.specs.Formats.Lines.{origin_line};
ghost use Rattle.rpki_payloads.specs.Formats.Openbgpd.{aspa_set_line, roa_line, some_aspas};
ghost use Rattle.rpki_payloads.specs.Formats.Row.{OriginRow, ProviderRow, origin_payload};
ghost use Rattle.rpki_payloads.specs.Formats.Row.{origin_until, provider_payload, provider_until};
ghost use Rattle.rpki_payloads.specs.Formats.Rows.{AreOriginsAfter, AreProvidersAfter};
ghost use Rattle.rpki_payloads.specs.Formats.Rows.{AssertsOrigin, AssertsProvider, FindsOrigin};
ghost use Rattle.rpki_payloads.specs.Formats.Rows.{FindsProvider, FollowExceptions, HasOrigin};
ghost use Rattle.rpki_payloads.specs.Formats.Rows.{HasProvider, IsKeptOrigin, IsKeptProvider};
ghost use Rattle.rpki_payloads.specs.Formats.Rows.{IsSaidOrigin, IsSaidProvider, kept_origins};
ghost use Rattle.rpki_payloads.specs.Formats.Rows.{kept_providers, said_origins, said_providers};
ghost use Rattle.rpki_payloads.specs.Formats.Table.{header, origin_fields, record_text};
ghost use Rattle.rpki_payloads.specs.Formats.Table.{table_text};
ghost use Rattle.rpki_payloads.specs.Found.{FoundUnder};
ghost use Rattle.rpki_payloads.specs.Printed.{AreEachOnce, PrintsEach};
ghost use Rattle.rpki_payloads.specs.Slurm.{drops_origin, drops_provider};
ghost use Rattle.rpki_payloads.specs.declared.formats.PayloadFormat.TheVariants as formats;
ghost use Rattle.rpki_payloads.specs.declared.formats.members.AsForm.TheVariants as forms;
ghost use Rattle.rpki_payloads.specs.declared.slurm.text.Exceptions.{Exceptions};

/// All that is said of payloads is what was found and no filter removes, and what is asserted. What
/// was found under a name is said once.
pub fn payloads_are_said()
    ensures origins { (exceptions : List Exceptions) (found : List FoundUnder) (r : OriginRow)
        → Contains (said_origins exceptions found) r ↔ IsSaidOrigin exceptions found r }
    ensures providers { (exceptions : List Exceptions) (found : List FoundUnder)
        (r : ProviderRow)
        → Contains (said_providers exceptions found) r ↔ IsSaidProvider exceptions found r }
    ensures origins_once { (exceptions : List Exceptions) (f : FoundUnder)
        → AreEachOnce (IsKeptOrigin exceptions f) (eq_by_cmp origin_order)
        (λ (r : OriginRow). r.origin) (kept_origins exceptions f) }
    ensures providers_once { (exceptions : List Exceptions) (f : FoundUnder)
        → AreEachOnce (IsKeptProvider exceptions f) (eq_by_cmp provider_order)
        (λ (r : ProviderRow). r.provider) (kept_providers exceptions f) }
{}

/// Local exceptions do what RFC 8416 says: what is filtered is gone, unless it is asserted; what is
/// asserted is there, and holds forever; what was found, and no filter names, stays; and there is
/// nothing else.
pub fn exceptions_are_applied()
    ensures origins { (exceptions : List Exceptions) (found : List FoundUnder)
        (rows : List OriginRow) → AreOriginsAfter exceptions found rows
        → FollowExceptions (FindsOrigin found) (AssertsOrigin exceptions) (HasOrigin rows)
        (drops_origin exceptions) origin_payload origin_until rows }
    ensures providers { (exceptions : List Exceptions) (found : List FoundUnder)
        (rows : List ProviderRow) → AreProvidersAfter exceptions found rows
        → FollowExceptions (FindsProvider found) (AssertsProvider exceptions) (HasProvider rows)
        (drops_provider exceptions) provider_payload provider_until rows }
{}

/// Providers that are printed as customers stand in one of them each, which is theirs; and no
/// customer stands twice.
pub fn providers_stand_with_their_customer()
    ensures all { (rows : List ProviderRow)
        → flat_map (λ (g : List ProviderRow). g) (groups rows) ≡ rows }
    ensures one { (rows : List ProviderRow) → All IsOfOneCustomer (groups rows) }
    ensures once { (exceptions : List Exceptions) (found : List FoundUnder)
        (rows : List ProviderRow) → AreProvidersAfter exceptions found rows
        → IsStrictlySortedBy nat_cmp (map customer_of (groups rows)) }
{}

/// Each format prints each row once. The tables of BIRD have those of their families, and those of
/// CSV and BIRD no ASPAs.
pub fn rows_are_printed_once()
    ensures lines { PrintsOrigins formats.Lines [] origin_line
        × PrintsCustomers formats.Lines [] aspa_line }
    ensures long { PrintsOrigins formats.Long [] long_origin
        × PrintsProviders formats.Long [] long_provider }
    ensures csv { PrintsOrigins formats.Csv [] record_text }
    ensures json { PrintsOrigins formats.Json (codes ",") (roa_item forms.Text)
        × PrintsCustomers formats.Json (codes ",") (aspa_item forms.Text) }
    ensures client { PrintsOrigins formats.RpkiClient (codes ",") (roa_item forms.Number)
        × PrintsCustomers formats.RpkiClient (codes ",") (aspa_item forms.Number) }
    ensures bird { PrintsEach (filter is_v4) [] route table_v4
        × PrintsEach (filter is_v6) [] route table_v6 }
    ensures openbgpd { PrintsOrigins formats.Openbgpd [] roa_line
        × PrintsEach (λ (gs : List (List ProviderRow)). gs) [] aspa_set_line some_aspas }
{}

/// What is written as CSV reads back as the names of the columns and a record for each origin, by
/// the reader of the crate `csv`.
pub fn tables_say_their_origins()
    ensures { (origins : List OriginRow) → records default_config (table_text origins)
        ≡ header ∷ map origin_fields origins }
{}

/// What is written as JSON is a text by the grammar of RFC 8259, and says the payloads: its value
/// has an object for each origin and for each customer, in their order. (Each number is below 2^64
/// in the code.)
pub fn objects_say_their_payloads()
    ensures json { (moment : Moment) (found : List FoundUnder) (origins : List OriginRow)
        (gs : List (List ProviderRow)) → HasSmall (json_data moment found origins gs)
        → IsTextOf (json_text moment found origins gs) (json_data moment found origins gs) }
    ensures client { (moment : Moment) (found : List FoundUnder) (origins : List OriginRow)
        (gs : List (List ProviderRow)) → HasSmall (client_data moment found origins gs)
        → IsTextOf (client_text moment found origins gs) (client_data moment found origins gs) }
{}
