//! The document by which a load is configured.

ghost use Rattle.std.specs.Prelude.{◌≡◌};
ghost use Rattle.fs_load.specs.Document as spec;

/// The document by which a load is configured: the limit of the journal, and the extensions that its calls dial. The
/// first answers and parks, the second is busy, and the third answers after 200 ms; for the fourth digit there is none.
#[tactic(auto, unfolding(crate::specs::Document::load_document))]
pub fn load_document() -> &'static [u8]
    ensures { result.now ≡ spec.load_document }
{
    b"<document>
<section name='configuration'><configuration name='switch.conf'><settings>
<param name='journal-limit' value='1073741824'/>
</settings></configuration></section>
<section name='dialplan'><context name='default'>
<extension><condition field='destination_number' expression='^d0$'>
<action application='answer'/><action application='park'/>
</condition></extension>
<extension><condition field='destination_number' expression='^d1$'>
<action application='hangup' data='USER_BUSY'/>
</condition></extension>
<extension><condition field='destination_number' expression='^d2$'>
<action application='sleep' data='200'/><action application='answer'/><action application='park'/>
</condition></extension>
</context></section>
</document>
"
}
